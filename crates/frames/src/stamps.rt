// Eight stamps as 32 bytes.
ghost use Rattle.std.specs.Prelude.{◌≡◌};
ghost use Rattle.std.specs.Int.Digits.{number_from_digits};
ghost use Rattle.layout.specs.Layout.{bytes_of, laid, parsed};
ghost use Rattle.frames.specs.Requests.{stamp_widths, stamps_in};

// The stamps in 32 bytes, absent for any other number of bytes.
pub fn stamps_of(bytes: &[u8]) -> Option<[u32; 8]>
    ensures { result ≡ stamps_in bytes.now }
{
    if bytes.len() != 32 {
        return None;
    }
    let (stamps, _) = bytes.as_chunks::<4>();
    let stamps: [[u8; 4]; 8] = stamps.try_into().ok()?;
    Some(stamps.map(
        |four: [u8; 4]| -> u32
            ensures { result ≡ number_from_digits 256 four }
        { u32::from_be_bytes(four) },
    ))
}

// The bytes of eight stamps.
pub fn stamp_bytes(stamps: &[u32; 8]) -> [u8; 32]
    ensures bytes { result ≡ laid stamp_widths stamps.now }
    ensures back { parsed stamp_widths result ≡ stamps.now }
{
    let parts = stamps.map(
        |stamp: u32| -> [u8; 4]
            ensures { result ≡ bytes_of 4 stamp }
        { stamp.to_be_bytes() },
    );
    let mut bytes = [0; 32];
    bytes.copy_from_slice(parts.as_flattened());
    bytes
}
