ghost use Rattle.std.specs.Prelude.{◌≡◌};
ghost use Rattle.byte_layouts.specs.Nothing.{nothing};

/// What is known of a text where a field of it is read, from what stands before the field: its version, and how many
/// values there are of a list.
#[derive(Clone, Copy)]
pub struct Known {
    pub version: u16,
    pub count: usize,
}

impl Known {
    /// Nothing is known.
    pub fn nothing() -> Known
        ensures { result ≡ nothing }
    {
        Known {
            version: 0,
            count: 0,
        }
    }
}
