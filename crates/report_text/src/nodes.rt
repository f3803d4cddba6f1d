ghost use Rattle.std.specs.Prelude.{◌≡◌, ◌++◌, flat_map, OnOk, OnErr};
ghost use Rattle.report_text.specs.Texts.{row_text, node_text};

use crate::parts::{append_name, append_numbers, append_words};
use row_model::{RowItem, RowList};
use wsrep_base::{ByteList, NoMemory};

/// Appends the last lines of a node: how far it has committed, and a line for each of its rows.
/// Nothing is appended where memory does not suffice.
pub fn put_node(out: &mut ByteList, node: u8, at: u64, rows: &RowList) -> Result<(), NoMemory>
    ensures ok { OnOk result (out.new ≡ out.old ++ node_text node at rows.now) }
    ensures err { OnErr result (out.new ≡ out.old) }
{
    let mut text = ByteList::new(out.alloc());
    append_node(&mut text, node, at, rows.as_slice())?;
    out.extend(text.as_slice())
}

#[tactic(auto, unfolding(crate::specs::Texts::node_text))]
fn append_node(text: &mut ByteList, node: u8, at: u64, rows: &[RowItem]) -> Result<(), NoMemory>
    ensures { OnOk result (text.new ≡ text.old ++ node_text node at rows.now) }
{
    append_words(text, b"node", &[u64::from(node)])?;
    append_words(text, b" at", &[at])?;
    text.push(b'\n')?;
    append_rows(text, rows)
}

fn append_rows(text: &mut ByteList, rows: &[RowItem]) -> Result<(), NoMemory>
    ensures { OnOk result (text.new ≡ text.old ++ flat_map row_text rows.now) }
{
    for item in rows {
        append_row(text, item)?;
    }
    Ok(())
}

fn append_row(text: &mut ByteList, item: &RowItem) -> Result<(), NoMemory>
    ensures { OnOk result (text.new ≡ text.old ++ row_text item.now) }
{
    append_words(text, b"row ", &[])?;
    append_name(text, &item.id.table)?;
    text.push(b' ')?;
    append_name(text, &item.id.row)?;
    append_numbers(text, item.row.values())?;
    text.push(b'\n')
}
