// The versions of an image's file.
ghost use Rattle.std.specs.Prelude.{◌≡◌};
ghost use Rattle.diva_image.specs.Header.{number_of_version, version_of};

/// The version of an image's file.
#[derive(Clone, Copy, Debug)]
pub(crate) enum Version {
    /// The payload stands behind the header.
    One,
    /// Segments do, behind a table that says where they lie.
    Two,
}

impl Version {
    /// The version that a number tells, which is 1 or 2.
    pub fn of(number: u32) -> Self
        ensures { result ≡ version_of number }
    {
        if number == 2 {
            Version::Two
        } else {
            Version::One
        }
    }

    /// Its number.
    pub fn number(self) -> u32
        ensures { result ≡ number_of_version self }
    {
        match self {
            Version::One => 1,
            Version::Two => 2,
        }
    }
}
