//! Sizes and alignments at every width of a pointer.

ghost use Rattle.std.specs.Prelude.{◌≡◌, ◌+◌, ◌-◌, ◌*◌, ◌/◌, ◌%◌, ◌^◌, ◌<◌, ◌≤◌, ◌==◌, ◌&&◌, IsTrue, max};
ghost use Rattle.wit_model.specs.Size.{
  bytes_at,
  paired,
  rounded_up,
  is_at_least,
  greater_size,
  alignment_at,
  greater_alignment,
};

/// A size in bytes at every pointer width: so many bytes, and so many pointers.
#[derive(Clone, Copy, Debug, PartialEq, Eq)]
pub struct ArchitectureSize {
    pub bytes: u64,
    pub pointers: u64,
}

/// An alignment at every pointer width: a pointer's, or so many bytes.
#[derive(Clone, Copy, Debug, PartialEq, Eq)]
pub enum Alignment {
    Pointer,
    Bytes(u32),
}

impl ArchitectureSize {
    /// The size that is so many bytes at pointers of 4 bytes and so many at pointers of 8. It exists where the second
    /// number is at least the first, at most twice the first, and differs from it by a multiple of 4.
    pub fn from_widths(at4: u64, at8: u64) -> ArchitectureSize
        requires grows { at4 ≤ at8 }
        requires doubles { at8 ≤ 2 * at4 }
        requires whole { (at8 - at4) % 4 ≡ 0 }
        ensures pair { result ≡ paired at4 at8 }
        ensures four { bytes_at result 4 ≡ at4 }
        ensures eight { bytes_at result 8 ≡ at8 }
    {
        let wider = at8 - at4;
        ArchitectureSize {
            bytes: at4 - wider,
            pointers: wider / 4,
        }
    }

    /// Whether the size is no byte and no pointer.
    pub fn is_empty(&self) -> bool
        ensures { result ≡ (self.now.bytes == 0 && self.now.pointers == 0) }
    {
        self.bytes == 0 && self.pointers == 0
    }

    /// The size in bytes, where a pointer has so many bytes.
    pub fn at(&self, width: u64) -> u64
        requires { bytes_at self.now width < 2 ^ 64 }
        ensures { result ≡ bytes_at self.now width }
    {
        self.bytes + self.pointers * width
    }

    fn is_at_least(&self, other: &ArchitectureSize) -> bool
        requires self_fits { bytes_at self.now 8 < 2 ^ 64 }
        requires other_fits { bytes_at other.now 8 < 2 ^ 64 }
        ensures { result ≡ is_at_least self.now other.now }
    {
        other.at(4) <= self.at(4) && other.at(8) <= self.at(8)
    }

    /// The greater size: the one of the two that is at least the other where pointers have 4 bytes and where they have 8.
    /// If neither is, it is a third one: the greater of the two at 4 bytes, rounded up to a multiple of 4, and the
    /// greater at 8 bytes, rounded up to a multiple of 8.
    pub fn max(&self, other: &ArchitectureSize) -> ArchitectureSize
        requires self_fits { rounded_up 8 (bytes_at self.now 8) < 2 ^ 64 }
        requires other_fits { rounded_up 8 (bytes_at other.now 8) < 2 ^ 64 }
        ensures greater { result ≡ greater_size self.now other.now }
        ensures covers_self { IsTrue (is_at_least result self.now) }
        ensures covers_other { IsTrue (is_at_least result other.now) }
    {
        if self.is_at_least(other) {
            return *self;
        }
        if other.is_at_least(self) {
            return *other;
        }
        let at4 = rounded_up(4, self.at(4).max(other.at(4)));
        let at8 = rounded_up(8, self.at(8).max(other.at(8)));
        ArchitectureSize::from_widths(at4, at8)
    }
}

/// A number at the next multiple of another one.
pub fn rounded_up(multiple: u64, n: u64) -> u64
    requires some { 0 < multiple }
    requires fits { rounded_up multiple n < 2 ^ 64 }
    ensures { result ≡ rounded_up multiple n }
{
    let past = n % multiple;
    if past == 0 { n } else { n + (multiple - past) }
}

impl Alignment {
    /// The greater alignment: a pointer's is above every one of up to 4 bytes, and below every greater one.
    pub fn max(&self, other: &Alignment) -> Alignment
        ensures { result ≡ greater_alignment self.now other.now }
    {
        match (self, other) {
            (Alignment::Pointer, Alignment::Pointer) => Alignment::Pointer,
            (Alignment::Pointer, Alignment::Bytes(n)) => max_with_pointer(*n),
            (Alignment::Bytes(n), Alignment::Pointer) => max_with_pointer(*n),
            (Alignment::Bytes(m), Alignment::Bytes(n)) => Alignment::Bytes((*m).max(*n)),
        }
    }

    /// The alignment in bytes, where a pointer has so many bytes.
    pub fn at(&self, width: u64) -> u64
        ensures { result ≡ alignment_at self.now width }
    {
        match self {
            Alignment::Pointer => width,
            Alignment::Bytes(n) => u64::from(*n),
        }
    }
}

fn max_with_pointer(n: u32) -> Alignment
    ensures { result ≡ greater_alignment Alignment.Pointer (Alignment.Bytes n) }
{
    if n <= 4 {
        Alignment::Pointer
    } else {
        Alignment::Bytes(n)
    }
}
