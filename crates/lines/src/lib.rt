//! The lines of an input: a reader that hands them out, their keys and values, and the faults of lines.

#![tactic(auto)]

pub mod bytes;
pub mod faults;
mod jobs;
pub mod keys;
pub mod laws;
pub mod letters;
pub mod line;
pub mod located;
pub mod reader;
mod words;

#[cfg(test)]
mod tests {
    use crate::faults::LineFault;
    use crate::keys::read;
    use crate::letters::letter;
    use crate::line::{Due, Job, Line};
    use crate::located::Located;
    use crate::reader::Reader;
    use std::test::Fail;

    #[test]
    fn lines_come_with_their_numbers(rt: HostRuntime) -> Result<(), Fail> {
        let mut reader = Reader::new(b"a=1\n\nbc");
        let first = reader.next()?;
        assert_eq!(rt; first.number, 1);
        assert_eq!(rt; first.bytes, b"a=1".as_slice());
        let second = reader.next()?;
        assert_eq!(rt; second.number, 2);
        assert_eq!(rt; second.bytes, b"".as_slice());
        let unfinished = Located {
            line: 3,
            fault: LineFault::Unfinished(2),
        };
        assert_eq!(rt; reader.next().err(), Some(unfinished));
        Ok(())
    }

    #[test]
    fn a_product_has_two_words(rt: HostRuntime) -> Result<(), Fail> {
        let Line::Job(Job::Product(u, v)) = read(Due::Job, b"product=12/3")? else {
            return Err(Fail::new("no product"));
        };
        assert_eq!(rt; (u, v), (b"12".as_slice(), b"3".as_slice()));
        Ok(())
    }

    #[test]
    fn wrong_slashes_keys_and_values_are_unexpected(rt: HostRuntime) {
        assert!(rt; read(Due::Job, b"product=1/2/3").is_err());
        assert!(rt; read(Due::Job, b"form=1/2").is_err());
        assert!(rt; read(Due::Job, b"sum=1").is_err());
        assert!(rt; read(Due::Job, b"sum").is_err());
        assert!(rt; read(Due::Row(1), b"row2=1").is_err());
        assert!(rt; read(Due::Row(2), b"row2=1").is_ok());
    }

    #[test]
    fn letters_are_digits(rt: HostRuntime) {
        assert_eq!(rt; letter(b'7'), 7);
        assert_eq!(rt; letter(b'x'), 0);
    }
}
