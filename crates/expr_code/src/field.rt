// The code of a field.
ghost use Rattle.std.specs.Prelude.{◌≡◌, ◌+◌, ◌<◌, ◌^◌, ◌++◌, slice_get, Some, OnOk, OnErr};
ghost use Rattle.store_layout.specs.declared.row.FileRow.{FileRow as Row};
ghost use Rattle.expr_code.specs.Code.{field_code, pointer_code};
ghost use Rattle.expr_code.specs.Sites.{Begins, GrowsByCode, GrowsByRow};

use crate::push::push_all;
use machine_code::Op;
use plex_num::{Memory, Seq};
use store_layout::{FileRow, Layout, file_of};

/// Appends the code that checks the pointer in the register `r` to a record of the file, which has
/// this row.
#[tactic(auto, using(crate::proofs::FieldSteps::pointer_own, crate::proofs::FieldSteps::pointer_plain, crate::proofs::Emits::begins_is))]
fn push_pointer(row: FileRow, file: u32, r: u8, ops: &mut Seq<Op>) -> Result<(), Memory>
    ensures code { OnOk result (GrowsByRow row ops.old ops.new (λ p. pointer_code p file r)) }
    ensures begins { OnErr result (Begins ops.old ops.new) }
{
    let size = Op::Ckp { r, n: row.size };
    if row.fields < row.stride {
        push_all(ops, &[size, Op::Own { r, f: file }])
    } else {
        push_all(ops, &[size])
    }
}

/// Appends the code that leaves a field of the record that a temporary names in the register `r`.
#[tactic(auto, using(crate::proofs::FieldSteps::fields, crate::proofs::Emits::growing))]
pub fn push_field(
    file: u32,
    field: u32,
    pointer: u8,
    layout: &Layout,
    block: u32,
    r: u8,
    ops: &mut Seq<Op>,
) -> Result<(), Memory>
    requires inside { (row : Row) → slice_get layout.now.files file ≡ Some row
        → row.first + field < 2 ^ 32 }
    ensures code { OnOk result (GrowsByCode layout.now block ops.old ops.new
        (λ site. field_code (slice_get site.files file) file field pointer r)) }
    ensures begins { OnErr result (Begins ops.old ops.new) }
{
    let Some(row) = file_of(layout, file) else {
        return push_all(ops, &[Op::Ldi { r, n: 0 }]);
    };
    let load = Op::Ldx {
        r,
        w: row.first + field,
        n: row.stride,
        s: r,
    };
    push_all(ops, &[Op::Ldt { r, i: pointer }])?;
    push_pointer(row, file, r, ops)?;
    push_all(ops, &[load])
}
