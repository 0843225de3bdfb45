// The instructions, row by row of their table, as they are read and printed.
ghost use Rattle.std.specs.Prelude.{◌≡◌, ◌<◌, ◌++◌, OnOk};
ghost use Rattle.name_tables.specs.Names.{operation_names};
ghost use Rattle.name_tables.specs.Rows.{names_of};
ghost use Rattle.listing.specs.Instructions.{written};
ghost use Rattle.listing.specs.Rows.{ReadsRow, row, row_line};

use crate::fault::LineFault;
use crate::operands::{
    load_indexed, local_register, nothing, number_register, numbers, one_number, one_register,
    register_local, register_number, register_place, register_width, registers, send,
    store_indexed,
};
use crate::print_line::add_row;
use machine_code::Op;
use name_tables::Row;
use plex_num::{Memory, Seq};

/// Hands to a macro each row: its place in the table, its instruction, and how its operands are
/// read, in their order.
macro_rules! rows {
    ($then:ident) => {
        $then! {
            0 Stmt one_number { p };
            1 Ldi register_number { r, n };
            2 Ldt register_local { r, i };
            3 Stt local_register { i, r };
            4 Lde register_place { r, k };
            5 Lda register_place { r, k };
            6 Add registers { r, s };
            7 Sub registers { r, s };
            8 Mul registers { r, s };
            9 Div registers { r, s };
            10 Rem registers { r, s };
            11 Eq registers { r, s };
            12 Ne registers { r, s };
            13 Lt registers { r, s };
            14 Le registers { r, s };
            15 Gt registers { r, s };
            16 Ge registers { r, s };
            17 And registers { r, s };
            18 Or registers { r, s };
            19 Jmp one_number { a };
            20 Jz register_number { r, a };
            21 Ldw register_number { r, w };
            22 Stw number_register { w, r };
            23 Ckw register_width { r, d };
            24 Ckp register_number { r, n };
            25 Own register_number { r, f };
            26 Ldx load_indexed { r, w, n, s };
            27 Stx store_indexed { w, n, s, r };
            28 Ckf nothing {};
            29 Chn register_number { r, f };
            30 Unc register_number { r, f };
            31 Arg one_register { r };
            32 Snd send { q, x, l };
            33 Dir one_number { a };
            34 Call numbers { a, m };
            35 Ret one_number { m };
            36 Trf numbers { a, n };
            37 End nothing {};
        }
    };
}

/// The instruction of a row with these operands, which are `None` where they are not below 2^32.
#[tactic(auto, unfolding(crate::specs::Rows::kinds_at, crate::specs::Rows::kinds, crate::specs::Rows::row, crate::specs::Instructions::written))]
pub fn op_at(row: usize, operands: &[Option<u32>]) -> Result<Op, LineFault>
    requires { row < 38 }
    ensures { ReadsRow row operands.now result }
{
    macro_rules! arms {
        ($($row:literal $op:ident $read:ident { $($field:ident),* };)*) => {
            match row {
                $($row => {
                    let ($($field),*) = $read(operands)?;
                    Ok(Op::$op { $($field),* })
                })*
                _ => Err(LineFault::Form),
            }
        };
    }
    rows!(arms)
}

/// Appends the line of an instruction, whose row of the table has its name.
#[tactic(auto, unfolding(crate::specs::Rows::row, crate::specs::Instructions::written))]
pub fn add_row_of(text: &mut Seq<u8>, op: Op, table: &[Row; 38]) -> Result<(), Memory>
    requires { names_of table.now ≡ operation_names }
    ensures { OnOk result (text.new ≡ text.old ++ row_line (row op) (written op).operands) }
{
    macro_rules! arms {
        ($($row:literal $op:ident $read:ident { $($field:ident),* };)*) => {
            match op {
                $(Op::$op { $($field),* } => add_row(text, table, $row, &[$(u64::from($field)),*]),)*
            }
        };
    }
    rows!(arms)
}
