// The nonce of ChaCha20's blocks.
#![tactic(auto)]

ghost use Rattle.std.specs.Prelude.{◌≡◌};
ghost use Rattle.nonces.specs.Nonce.{nonce_of};

// The nonce of a use number and a batch number.
pub fn nonce(purpose: u32, batch: u64) -> [u8; 12]
    ensures { result ≡ nonce_of purpose batch }
{
    let mut nonce = [0u8; 12];
    words::store32(&mut nonce, 0, purpose);
    words::store64(&mut nonce, 4, batch);
    nonce
}
