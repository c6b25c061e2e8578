// A segment of an image's file of version 2.
ghost use Rattle.std.specs.Prelude.{◌≡◌, ◌≤◌, ◌-◌, ◌^◌, ◌<◌};
ghost use Rattle.diva_image.specs.Segments.{behind, is_between};

/// Where a segment lies in memory.
#[derive(Clone, Copy, Debug, Default)]
pub(crate) struct Segment {
    /// The address of its first byte.
    pub addr: u32,
    /// How many bytes it has.
    pub len: u32,
}

impl Segment {
    /// The address behind it.
    pub fn behind(self) -> u64
        ensures { result ≡ behind self }
    {
        u64::from(self.addr) + u64::from(self.len)
    }

    /// Whether it has bytes, and lies between two addresses.
    pub fn is_between(self, least: u64, most: u64) -> bool
        ensures { result ≡ is_between least most self }
    {
        0 < self.len && least <= u64::from(self.addr) && self.behind() <= most
    }

    /// From its first byte to the last one of another, which lies behind it.
    pub fn up_to(self, other: Segment) -> Self
        requires after { self.addr ≤ behind other }
        requires fits { behind other - self.addr < 2 ^ 32 }
        ensures { result ≡ record { addr = self.addr; len = behind other - self.addr } }
    {
        Segment {
            addr: self.addr,
            len: (other.behind() - u64::from(self.addr)) as u32,
        }
    }
}
