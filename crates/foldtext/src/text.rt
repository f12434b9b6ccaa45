// Text in an array, for those who may not allocate.
ghost use Rattle.std.specs.Prelude.{◌≡◌, ◌≤◌, take};

// The first len of the bytes.
#[derive(Clone, Copy)]
pub struct Text<const N: usize> {
    pub len: usize,
    pub bytes: [u8; N],
    pub ghost within: { len ≤ N },
}

impl<const N: usize> Text<N> {
    pub fn as_bytes(&self) -> &[u8]
        ensures { result.now ≡ take self.now.len self.now.bytes }
    {
        &self.bytes[..self.len]
    }
}
