ghost use Rattle.std.specs.Prelude.{◌≡◌};
ghost use Rattle.unit_files.specs.Acts.{is_read_only};

/// How a file is attached.
#[derive(Clone, Copy, Debug, PartialEq, Eq)]
pub enum AttachMode {
    /// The file is made where it is not there.
    Any,
    /// The file is there.
    MustExist,
    /// The file is made, or emptied.
    New,
    /// The file is there, and is only read.
    ReadOnly,
}

impl AttachMode {
    /// Whether the file is only read.
    pub(crate) fn is_read_only(self) -> bool
        ensures { result ≡ is_read_only self }
    {
        match self {
            AttachMode::ReadOnly => true,
            AttachMode::Any | AttachMode::MustExist | AttachMode::New => false,
        }
    }
}
