//! The theorems. Each function does nothing: its contract is the theorem, and the check asks for the proof.
//! They hold for every Coxeter matrix of rank 1 to 8 with exponents 2 to 6 or inf, and for all words of its letters.

ghost use Rattle.coxeter.specs.Theorems.{SignsAgree, JoinedWordsMeet, SignsTellDescents, LettersSuffice, PointsDecide};
ghost use Rattle.coxeter.specs.Theorems.{OneForm, FormsComputed, FormsDecide, JoiningDecided, FormsMeasure, DistancesDecide};
ghost use Rattle.coxeter.specs.Examples.{ExamplesHold};

/// The tests of a number's sign decide the rule of three cases.
pub fn signs_agree()
    ensures { SignsAgree }
{}

/// Joined words lead from any point to the same point.
pub fn joined_words_meet()
    ensures { JoinedWordsMeet }
{}

/// From any point with numbers above zero, the number of s after w is never zero, and it is negative exactly when
/// s descends at w; then w followed by s is joined to a word of fewer letters than w has.
pub fn signs_tell_descents()
    ensures { SignsTellDescents }
{}

/// Every word has exactly one form. It is joined to the word and has no more letters.
pub fn one_form()
    ensures { OneForm }
{}

/// The function that computes the form agrees with the relation.
pub fn forms_are_computed()
    ensures { FormsComputed }
{}

/// Two words have equal forms exactly when moves join them.
pub fn forms_decide_joining()
    ensures { FormsDecide }
{}

/// It is decided whether moves join two words.
pub fn joining_is_decided()
    ensures { JoiningDecided }
{}

/// The form's letter count is the length of the element.
pub fn forms_measure_length()
    ensures { FormsMeasure }
{}

/// The distance of two words is 0 exactly when moves join them.
pub fn distances_decide_joining()
    ensures { DistancesDecide }
{}

/// What is read off a point depends on the numbers of the letters alone.
pub fn letters_suffice()
    ensures { LettersSuffice }
{}

/// Two words have equal points on the letters exactly when moves join them.
pub fn points_decide_joining()
    ensures { PointsDecide }
{}

/// The definitions yield each of the worked examples.
pub fn examples_hold()
    ensures { ExamplesHold }
{}
