// The layers in which a refusal can arise.
ghost use Rattle.std.specs.Prelude.{◌≡◌, Some};
ghost use Rattle.refusals.specs.Layers.{layer_name};

use std::fmt;

/// The layer in which a refusal arose.
#[derive(Clone, Copy, Debug, PartialEq)]
pub enum Layer {
    /// The input's lines: their ends, keys and slashes.
    Line,
    /// What the lines of a sheet say.
    Sheet,
    /// A word, and the buffers and carriers handed over with it.
    Word,
    /// The register's table.
    Register,
}

impl Layer {
    /// The name by which the layer is printed.
    pub fn name(self) -> &'static str
        ensures { result.now ≡ layer_name self }
    {
        match self {
            Layer::Line => "line",
            Layer::Sheet => "sheet",
            Layer::Word => "word",
            Layer::Register => "register",
        }
    }
}

impl fmt::Display for Layer {
    ghost output = { λ l. Some (layer_name l) };

    fn fmt<W: fmt::Write>(&self, f: &mut fmt::Formatter<W>) -> fmt::Result {
        f.write_str(self.name())
    }
}
