//! 32 bytes as hexadecimal digits, for both kinds of id.

ghost use Rattle.std.specs.Prelude.{◌≡◌};
ghost use Rattle.hex.specs.Hex.{encode_lower};

/// 32 bytes as 64 lower-case hexadecimal digits. It takes no memory.
pub fn id_digits(bytes: [u8; 32]) -> [u8; 64]
    ensures { result ≡ encode_lower bytes }
{
    let mut text = [0; 64];
    let _ = hex::encode_to_slice(bytes, &mut text);
    text
}
