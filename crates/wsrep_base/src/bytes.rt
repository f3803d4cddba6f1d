ghost use Rattle.std.specs.Prelude.{◌≡◌, ◌++◌, OnOk, OnErr};
ghost use Rattle.std.specs.Int.{w32, w64, to_be_bytes};
ghost use Rattle.wsrep_base.specs.Bytes.{number_at};

use crate::NoMemory;
use byteorder::{BigEndian, ByteOrder};
use item_list::ItemList;

/// A list of bytes.
pub type ByteList = ItemList<u8>;

/// The number in the four bytes from place `at`, the highest first. None where they are not there.
pub fn read_u32(bytes: &[u8], at: usize) -> Option<u32>
    ensures { result ≡ number_at w32 bytes.now at }
{
    if at > bytes.len() || bytes.len() - at < 4 {
        return None;
    }
    let field = &bytes[at..];
    Some(u32::from_be_bytes([field[0], field[1], field[2], field[3]]))
}

/// The number in the eight bytes from place `at`, the highest first. None where they are not there.
pub fn read_u64(bytes: &[u8], at: usize) -> Option<u64>
    ensures { result ≡ number_at w64 bytes.now at }
{
    if at > bytes.len() || bytes.len() - at < 8 {
        return None;
    }
    let field = &bytes[at..];
    Some(u64::from_be_bytes([
        field[0], field[1], field[2], field[3], field[4], field[5], field[6], field[7],
    ]))
}

/// Appends the four bytes of the number, the highest first.
pub fn put_u32(out: &mut ByteList, value: u32) -> Result<(), NoMemory>
    ensures ok { OnOk result (out.new ≡ out.old ++ to_be_bytes w32 value) }
    ensures err { OnErr result (out.new ≡ out.old) }
{
    let mut field = [0; 4];
    BigEndian::write_u32(&mut field, value);
    out.extend(&field)
}

/// Appends the eight bytes of the number, the highest first.
pub fn put_u64(out: &mut ByteList, value: u64) -> Result<(), NoMemory>
    ensures ok { OnOk result (out.new ≡ out.old ++ to_be_bytes w64 value) }
    ensures err { OnErr result (out.new ≡ out.old) }
{
    let mut field = [0; 8];
    BigEndian::write_u64(&mut field, value);
    out.extend(&field)
}
