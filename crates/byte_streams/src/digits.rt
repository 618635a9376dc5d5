//! The digits of a digest.
ghost use Rattle.std.specs.Prelude.{◌≡◌};
ghost use Rattle.hex.specs.Hex.{encode_lower};

/// The digits of a digest, in lower case.
pub fn digest_digits(sha256: [u8; 32]) -> [u8; 64]
    ensures { result ≡ encode_lower sha256 }
{
    let mut digits = [0u8; 64];
    // There is room for them.
    let _fits = hex::encode_to_slice(sha256, &mut digits);
    digits
}
