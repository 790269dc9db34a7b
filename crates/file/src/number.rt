//! Numbers as they stand in a file, the low byte first.
ghost use Rattle.std.specs.Prelude.{◌≡◌, ℕ, ◌+◌, ◌<◌, ◌≤◌, List, length, MatchOption};
ghost use Rattle.house.specs.Fields.{byte, le16, le32, slice};
ghost use Rattle.house.specs.Held.{le64};

// Bytes and any place among them, below `Place` and `Field`, which say what kind of place it is.

/// A number of so many bytes.
pub(crate) trait Number: Copy {
    ghost size: { ℕ };

    ghost standing: { List ℕ → ℕ → Self };

    /// The number at a place from which its bytes are all there.
    fn found(bytes: &[u8], at: usize) -> Self
        requires { at + size ≤ length bytes.now }
        ensures { result ≡ standing bytes.now at };

    /// The number at a place, if its bytes are all there.
    fn read(bytes: &[u8], at: usize) -> Option<Self>
        ensures { MatchOption result (length bytes.now < at + size) (λ n. (at + size ≤ length bytes.now) × (n ≡ standing bytes.now at)) };
}

/// The `N` bytes at a place, if they are all there.
#[tactic(auto, using(crate::proofs::Tails::behind))]
fn chunk<const N: usize>(bytes: &[u8], at: usize) -> Option<&[u8; N]>
    ensures { MatchOption result (length bytes.now < at + N) (λ c. (at + N ≤ length bytes.now) × (c.now ≡ slice bytes.now at N)) }
{
    bytes.get(at..)?.first_chunk()
}

impl Number for u8 {
    ghost size = { 1 };

    ghost standing = { byte };

    fn found(bytes: &[u8], at: usize) -> u8 {
        bytes[at]
    }

    fn read(bytes: &[u8], at: usize) -> Option<u8> {
        bytes.get(at).copied()
    }
}

// The three below differ in a type and a size: `from_le_bytes` belongs to each type, and what `read` shares is `chunk`. `found` goes by index: where
// the bytes are known to be there, nothing is tested as it runs.
impl Number for u16 {
    ghost size = { 2 };

    ghost standing = { le16 };

    fn found(bytes: &[u8], at: usize) -> u16 {
        u16::from_le_bytes([bytes[at], bytes[at + 1]])
    }

    #[tactic(auto, using(crate::proofs::Chunks::chunk_le16))]
    fn read(bytes: &[u8], at: usize) -> Option<u16> {
        Some(u16::from_le_bytes(*chunk(bytes, at)?))
    }
}

impl Number for u32 {
    ghost size = { 4 };

    ghost standing = { le32 };

    fn found(bytes: &[u8], at: usize) -> u32 {
        u32::from_le_bytes([bytes[at], bytes[at + 1], bytes[at + 2], bytes[at + 3]])
    }

    #[tactic(auto, using(crate::proofs::Chunks::chunk_le32))]
    fn read(bytes: &[u8], at: usize) -> Option<u32> {
        Some(u32::from_le_bytes(*chunk(bytes, at)?))
    }
}

impl Number for u64 {
    ghost size = { 8 };

    ghost standing = { le64 };

    fn found(bytes: &[u8], at: usize) -> u64 {
        let [b0, b1, b2, b3] = [bytes[at], bytes[at + 1], bytes[at + 2], bytes[at + 3]];
        let [b4, b5, b6, b7] = [bytes[at + 4], bytes[at + 5], bytes[at + 6], bytes[at + 7]];
        u64::from_le_bytes([b0, b1, b2, b3, b4, b5, b6, b7])
    }

    #[tactic(auto, using(crate::proofs::Chunks::chunk_le64))]
    fn read(bytes: &[u8], at: usize) -> Option<u64> {
        Some(u64::from_le_bytes(*chunk(bytes, at)?))
    }
}
