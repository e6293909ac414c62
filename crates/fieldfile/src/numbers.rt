// Numbers that are read from bytes, the low byte first.
ghost use Rattle.std.specs.Prelude.{◌≡◌, ◌+◌, ◌≤◌, length, take, drop};
ghost use Rattle.records.specs.Bytes.{two, row_in};

use super::cursor::ROW;
use std::array;

// The N bytes from `at` on.
pub(crate) fn bytes_at<const N: usize>(bytes: &[u8], at: usize) -> [u8; N]
    requires { at + N ≤ length bytes.now }
    ensures { result ≡ take N (drop at bytes.now) }
{
    *bytes[at..].first_chunk().unwrap()
}

// The number in two bytes from `at` on.
pub(crate) fn u16_at(bytes: &[u8], at: usize) -> u16
    requires { at + 2 ≤ length bytes.now }
    ensures { result ≡ two bytes.now at }
{
    u16::from_le_bytes(bytes_at(bytes, at))
}

// The eight numbers in sixteen bytes from `at` on.
pub(crate) fn row_at(bytes: &[u8], at: usize) -> [u16; ROW]
    requires { at + 16 ≤ length bytes.now }
    ensures { result ≡ row_in bytes.now at }
{
    array::from_fn(|i| u16_at(bytes, at + 2 * i))
}
