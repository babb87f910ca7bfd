//! Numbers read from bytes, the highest byte first.
ghost use Rattle.std.specs.Prelude.{◌≡◌, ◌+◌, ◌≤◌, [], ◌∷◌, length, take, drop, slice_index, SomeIff, IfSome};
ghost use Rattle.std.specs.Int.{w16, w32, w64, cast_signed, cast_unsigned, to_be_bytes};
ghost use Rattle.ode_host.specs.Fields.{number_at};

/// The byte at this place, and none where too few bytes are left.
pub fn take_u8(bytes: &[u8], at: usize) -> Option<u8>
    ensures value { SomeIff result (at + 1 ≤ length bytes.now) (slice_index bytes.now at) }
    ensures spelled { IfSome result (λ v. v ∷ [] ≡ take 1 (drop at bytes.now)) }
{
    bytes.get(at).copied()
}

/// The number in the two bytes at this place, and none where too few bytes are left.
pub fn take_u16(bytes: &[u8], at: usize) -> Option<u16>
    ensures value { SomeIff result (at + 2 ≤ length bytes.now) (number_at w16 bytes.now at) }
    ensures spelled { IfSome result (λ v. to_be_bytes w16 v ≡ take 2 (drop at bytes.now)) }
{
    if bytes.len() < 2 || at > bytes.len() - 2 {
        return None;
    }
    let field = &bytes[at..at + 2];
    Some(u16::from_be_bytes([field[0], field[1]]))
}

/// The number in the four bytes at this place, and none where too few bytes are left.
pub fn take_u32(bytes: &[u8], at: usize) -> Option<u32>
    ensures value { SomeIff result (at + 4 ≤ length bytes.now) (number_at w32 bytes.now at) }
    ensures spelled { IfSome result (λ v. to_be_bytes w32 v ≡ take 4 (drop at bytes.now)) }
{
    if bytes.len() < 4 || at > bytes.len() - 4 {
        return None;
    }
    let field = &bytes[at..at + 4];
    Some(u32::from_be_bytes([field[0], field[1], field[2], field[3]]))
}

/// The number in the eight bytes at this place, and none where too few bytes are left.
pub fn take_u64(bytes: &[u8], at: usize) -> Option<u64>
    ensures value { SomeIff result (at + 8 ≤ length bytes.now) (number_at w64 bytes.now at) }
    ensures spelled { IfSome result (λ v. to_be_bytes w64 v ≡ take 8 (drop at bytes.now)) }
{
    if bytes.len() < 8 || at > bytes.len() - 8 {
        return None;
    }
    let field = &bytes[at..at + 8];
    Some(u64::from_be_bytes([
        field[0], field[1], field[2], field[3], field[4], field[5], field[6], field[7],
    ]))
}

/// The signed number in the eight bytes at this place, and none where too few bytes are left.
pub fn take_i64(bytes: &[u8], at: usize) -> Option<i64>
    ensures value { SomeIff result (at + 8 ≤ length bytes.now) (cast_signed w64 (number_at w64 bytes.now at)) }
    ensures spelled { IfSome result (λ v. to_be_bytes w64 (cast_unsigned w64 v) ≡ take 8 (drop at bytes.now)) }
{
    if bytes.len() < 8 || at > bytes.len() - 8 {
        return None;
    }
    let field = &bytes[at..at + 8];
    Some(i64::from_be_bytes([
        field[0], field[1], field[2], field[3], field[4], field[5], field[6], field[7],
    ]))
}
