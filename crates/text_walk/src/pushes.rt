// Events put at the end of a list.
ghost use Rattle.std.specs.Prelude.{◌≡◌, ◌+◌, OnOk, IfOk};
ghost use Rattle.text_events.specs.Kept.{line_kept, note_kept};
ghost use Rattle.text_events.specs.Note as note;
ghost use Rattle.text_events.specs.Walk.{add};
ghost use Rattle.text_events.specs.declared.role.Meaning.TheVariants as meanings;

use plex_ast::{Boxed, Named};
use plex_num::{Memory, Seq};
use std::alloc::Global;
use text_events::{Compared, Event, FieldHere, Need, PackedEvent, Role};

/// A number of a name that is so many further; refuses where 32 bits have no such number.
pub(crate) fn plus(number: u32, more: u32) -> Result<u32, Memory>
    ensures { IfOk result (λ n. n ≡ number + more) }
{
    number.checked_add(more).ok_or(Memory)
}

/// A number of 32 bits, or no memory.
pub(crate) fn narrow(number: usize) -> Result<u32, Memory>
    ensures { IfOk result (λ n. n ≡ number) }
{
    u32::try_from(number).map_err(|_| Memory)
}

/// Appends the event of which this is kept.
pub(crate) fn push<'a>(out: &mut Seq<Event<'a>>, kept: PackedEvent<'a>) -> Result<(), Memory>
    ensures { OnOk result (out.new ≡ add (line_kept kept.entry) (note_kept kept.entry) out.old) }
{
    out.push(Event::of(kept))
}

/// Appends the declaration of a field of a file.
pub(crate) fn push_field<'a>(
    alloc: Global,
    out: &mut Seq<Event<'a>>,
    name: &'a Named,
    file: u32,
    field: u32,
) -> Result<(), Memory>
    ensures { OnOk result (out.new ≡ add name.now.line
        (note.Declares name.now.name (meanings.Field file field)) out.old) }
{
    let here = Boxed::new(alloc, FieldHere { file, field, name })?;
    push(out, PackedEvent::Field(here))?;
    Ok(())
}

/// Appends the field that FOR FIRST looks at, in its file.
pub(crate) fn push_compared<'a>(
    alloc: Global,
    out: &mut Seq<Event<'a>>,
    file: &'a Named,
    field: &'a Named,
) -> Result<(), Memory>
    ensures { OnOk result (out.new ≡ add field.now.line (note.Compares field.now.name file.now.name)
        out.old) }
{
    let both = Boxed::new(alloc, Compared { field, file })?;
    push(out, PackedEvent::Compares(both))?;
    Ok(())
}

/// Appends a use of a name.
pub(crate) fn push_use<'a>(out: &mut Seq<Event<'a>>, n: &'a Named, need: Need) -> Result<(), Memory>
    ensures { OnOk result (out.new ≡ add n.now.line (note.Uses n.now.name need) out.old) }
{
    let kept = PackedEvent::Uses {
        need,
        line: n.line,
        name: &n.name,
    };
    push(out, kept)?;
    Ok(())
}

/// Appends a signal's name.
pub(crate) fn push_signal<'a>(
    out: &mut Seq<Event<'a>>,
    n: &'a Named,
    role: Role,
) -> Result<(), Memory>
    ensures { OnOk result (out.new ≡ add n.now.line (note.Names n.now.name role) out.old) }
{
    let kept = PackedEvent::Names {
        role,
        line: n.line,
        signal: &n.name,
    };
    push(out, kept)?;
    Ok(())
}

/// Appends a label to which control may go.
pub(crate) fn push_label<'a>(out: &mut Seq<Event<'a>>, n: &'a Named) -> Result<(), Memory>
    ensures { OnOk result (out.new ≡ add n.now.line (note.Goes n.now.name) out.old) }
{
    let kept = PackedEvent::Goes {
        line: n.line,
        label: &n.name,
    };
    push(out, kept)?;
    Ok(())
}
