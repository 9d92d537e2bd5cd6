// The header and the rows as lines of text.
ghost use Rattle.std.specs.Prelude.{true, ◌≡◌, ◌≤◌, length};
ghost use Rattle.octets.specs.Writing.{written, output_after};
ghost use Rattle.stock_table.specs.Columns.{stated_fields, row_fields, header_line, row_line};

use super::Row;
use line_fields::{Field, write_fields, write_text};
use octets::Written;
use provisioning::Capabilities;

// The first line of all.
pub fn write_header(output: &mut [u8]) -> Written
    ensures { (result ≡ written true header_line output.old)
        × (output.new ≡ output_after true header_line output.old)
        × (length header_line ≤ 315) }
{
    write_text(
        b"what,line,socket,link_id,number,refusal,message,elements,algorithms,public_key_type,static_oob_type,output_oob_size,output_oob_action,input_oob_size,input_oob_action\n",
        output,
    )
}

fn stated_fields(stated: Option<Capabilities>) -> [Field; 8]
    ensures { result ≡ stated_fields stated }
{
    let Some(capabilities) = stated else {
        return [Field::Empty; 8];
    };
    [
        Field::Decimal(capabilities.elements as u64),
        Field::Pair(capabilities.algorithms),
        Field::Decimal(capabilities.public_key_type as u64),
        Field::Decimal(capabilities.static_oob_type as u64),
        Field::Decimal(capabilities.output_oob_size as u64),
        Field::Pair(capabilities.output_oob_action),
        Field::Decimal(capabilities.input_oob_size as u64),
        Field::Pair(capabilities.input_oob_action),
    ]
}

fn row_fields(row: Row) -> [Field; 15]
    ensures { result ≡ row_fields row }
{
    let stated = stated_fields(row.stated);
    [
        Field::Word(row.what),
        row.line,
        row.origin.socket,
        row.origin.id,
        row.origin.number,
        row.refusal,
        row.message,
        stated[0],
        stated[1],
        stated[2],
        stated[3],
        stated[4],
        stated[5],
        stated[6],
        stated[7],
    ]
}

pub fn write_row(row: Row, output: &mut [u8]) -> Written
    ensures { (result ≡ written true (row_line row) output.old)
        × (output.new ≡ output_after true (row_line row) output.old)
        × (length (row_line row) ≤ 315) }
{
    write_fields(row_fields(row), output)
}
