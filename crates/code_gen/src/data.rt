// Assignments.
ghost use Rattle.std.specs.Prelude.{◌≡◌, ◌+◌, ◌<◌, ◌^◌, ◌++◌, slice_get, OnOk};
ghost use Rattle.exchange_model.specs.declared.stmt.StmtKind.TheOpen as layer;
ghost use Rattle.expr_code.specs.Code.{pointer_code};
ghost use Rattle.stmt_code.specs.StmtCode.{field_store, range_code};
ghost use Rattle.code_gen.specs.Settings.{IsFieldIn, IsIn, IsSetting, code_in, placed_of};
ghost use Rattle.code_gen.specs.Settings.{places_in};

use crate::lookup::width_of_field;
use crate::setting::{Setting, Spot};
use crate::value::push_value;
use exchange_model::{Expr, FilePlace};
use expr_code::push_all;
use machine_code::Op;
use plex_num::{Memory, Seq};

/// A temporary gets a value.
#[tactic(auto, using(crate::proofs::Inside::set_temp_value, crate::proofs::DataSteps::set_temp_is))]
pub fn set_temp(
    temp: u8,
    value: &Expr,
    at: &Setting<'_>,
    spot: Spot,
    ops: &mut Seq<Op>,
) -> Result<(), Memory>
    requires { IsIn at.now spot.loops (layer.SetTemp temp value.now) }
    ensures { OnOk result (ops.new ≡ ops.old ++ code_in
        (layer.SetTemp temp value.now) at.now spot) }
{
    push_all(ops, &[Op::Stmt { p: spot.point }])?;
    push_value(value, at, 0, ops)?;
    push_all(ops, &[Op::Stt { i: temp, r: 0 }])
}

/// A variable gets a value, which must fit its width.
#[tactic(auto, using(crate::proofs::Inside::set_variable_value, crate::proofs::Inside::set_variable_in, crate::proofs::DataSteps::set_variable_is))]
pub fn set_variable(
    variable: u32,
    value: &Expr,
    at: &Setting<'_>,
    spot: Spot,
    ops: &mut Seq<Op>,
) -> Result<(), Memory>
    requires { IsIn at.now spot.loops (layer.SetVariable variable value.now) }
    ensures { OnOk result (ops.new ≡ ops.old ++ code_in
        (layer.SetVariable variable value.now) at.now spot) }
{
    let width = at.width(variable);
    let store = Op::Stw {
        w: at.word(variable),
        r: 0,
    };
    push_all(ops, &[Op::Stmt { p: spot.point }])?;
    push_value(value, at, 0, ops)?;
    push_range(0, width, ops)?;
    push_all(ops, &[store])
}

/// A field gets a value: first the pointer is checked, and then whether the value fits the field's
/// width.
#[tactic(auto, using(crate::proofs::Inside::set_field_value, crate::proofs::Inside::set_field_in, crate::proofs::DataSteps::set_field_is))]
pub fn set_field(
    file: u32,
    field: u32,
    pointer: u8,
    value: &Expr,
    at: &Setting<'_>,
    spot: Spot,
    ops: &mut Seq<Op>,
) -> Result<(), Memory>
    requires { IsIn at.now spot.loops (layer.SetField file field pointer value.now) }
    ensures { OnOk result (ops.new ≡ ops.old ++ code_in
        (layer.SetField file field pointer value.now) at.now spot) }
{
    push_all(ops, &[Op::Stmt { p: spot.point }])?;
    push_value(value, at, 0, ops)?;
    store_field(file, field, pointer, at, ops)
}

/// Appends the code by which the value in register 0 goes into a field.
#[tactic(auto, using(crate::proofs::DataSteps::stores, crate::proofs::Inside::in_file))]
fn store_field(
    file: u32,
    field: u32,
    pointer: u8,
    at: &Setting<'_>,
    ops: &mut Seq<Op>,
) -> Result<(), Memory>
    requires { IsFieldIn at.now file field }
    ensures { OnOk result (ops.new ≡ ops.old ++ field_store (slice_get
        (places_in at.now).site.files file) file field pointer) }
{
    let Some(place) = at.file(file) else {
        return Ok(());
    };
    let field_width = width_of_field(&place, field);
    let write = Op::Stx {
        w: word_in(&place, field),
        n: place.file.record_cells(),
        s: 1,
        r: 0,
    };
    push_all(ops, &[Op::Ldt { r: 1, i: pointer }])?;
    push_pointer(&place, file, 1, ops)?;
    push_range(0, field_width, ops)?;
    push_all(ops, &[write])
}

/// Appends what looks whether the value in the register `r` fits a width, which each value does
/// from 32 bits on.
#[tactic(auto, using(crate::proofs::DataSteps::ranges))]
fn push_range(r: u8, width: u8, ops: &mut Seq<Op>) -> Result<(), Memory>
    ensures { OnOk result (ops.new ≡ ops.old ++ range_code r width) }
{
    if width < 32 {
        push_all(ops, &[Op::Ckw { r, d: width }])
    } else {
        Ok(())
    }
}

/// The word of a field of a file's first record.
pub fn word_in(place: &FilePlace<'_>, field: u32) -> u32
    requires { place.now.first + field < 2 ^ 32 }
    ensures { result ≡ place.now.first + field }
{
    place.first + field
}

/// Appends the code that checks the pointer in the register `r` to a record of the file.
pub fn push_pointer(
    place: &FilePlace<'_>,
    file: u32,
    r: u8,
    ops: &mut Seq<Op>,
) -> Result<(), Memory>
    ensures { OnOk result (ops.new ≡ ops.old ++ pointer_code (placed_of place.now) file r) }
{
    let size = Op::Ckp {
        r,
        n: place.file.size,
    };
    if place.file.forlopp {
        push_all(ops, &[size, Op::Own { r, f: file }])
    } else {
        push_all(ops, &[size])
    }
}
