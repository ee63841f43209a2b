// A lent buffer, and how far it is written.
ghost use Rattle.std.specs.Prelude.{◌≡◌, ◌≤◌, length, min};

#[derive(Drop)]
pub struct Page<'a> {
    pub(crate) out: &'a mut [u8],
    pub(crate) at: usize,
    ghost within: { at ≤ length out.now },
}

impl<'a> Page<'a> {
    // A page of which nothing is written.
    pub fn new(out: &'a mut [u8]) -> Page<'a>
        ensures same_buffer { result.out.ghost_name ≡ out.entry.ghost_name }
        ensures same_bytes { result.out.now ≡ out.old }
        ensures start { result.at ≡ 0 }
    {
        Page { out, at: 0 }
    }

    // A page of which the first `at` bytes are written, or all where there are fewer.
    pub fn after(out: &'a mut [u8], at: usize) -> Page<'a>
        ensures same_buffer { result.out.ghost_name ≡ out.entry.ghost_name }
        ensures same_bytes { result.out.now ≡ out.old }
        ensures start { result.at ≡ min at (length out.old) }
    {
        let at = at.min(out.len());
        Page { out, at }
    }

    // How far it is written.
    pub fn written(&self) -> usize
        ensures { result ≡ self.now.at }
    {
        self.at
    }
}
