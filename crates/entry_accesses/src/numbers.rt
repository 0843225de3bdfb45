// The numbers of variables and fields through an exchange.
ghost use Rattle.std.specs.Prelude.{◌≡◌, ◌+◌, ◌<◌, ◌^◌, ◌++◌, map, IfOk};
ghost use Rattle.exchange_model.specs.declared.exchange.Exchange as declared;
ghost use Rattle.exchange_model.specs.Inside.{total};
ghost use Rattle.entry_summary.specs.Numbers.{field_number, variable_number};
ghost use Rattle.entry_accesses.specs.Numbered.{AreNumbers, HasNumber, field_count, field_counts};
ghost use Rattle.entry_accesses.specs.Numbered.{sums_from, variable_count};

use exchange_model::{Block, Exchange, File};
use plex_num::{Memory, Seq};
use std::alloc::Global;

/// Where the numbers through an exchange begin: of each block the number of its first variable, and
/// of each file that of its first field.
pub struct CellNumbers {
    pub variables: Seq<u32>,
    pub fields: Seq<u32>,
}

impl Drop for CellNumbers {
    fn drop(self) {
        let CellNumbers {
            variables: _,
            fields: _,
        } = self;
    }
}

/// The numbers of an exchange, which are made once.
pub fn numbers_of(alloc: Global, exchange: &Exchange) -> Result<CellNumbers, Memory>
    ensures { IfOk result (λ numbers. AreNumbers exchange.now numbers) }
{
    exchange.kept();
    let variables = first_variables(alloc, exchange.blocks.as_slice())?;
    let fields = first_fields(alloc, exchange.blocks.as_slice())?;
    Ok(CellNumbers { variables, fields })
}

impl CellNumbers {
    /// The number of a variable of a block.
    pub fn variable(&self, block: u32, variable: u32) -> u32
        requires { HasNumber self.now.variables block variable }
        ensures { (x : declared.Exchange) → AreNumbers x self.now
            → result ≡ variable_number x block variable }
    {
        self.variables.as_slice()[block as usize] + variable
    }

    /// The number of a field of a file.
    pub fn field(&self, file: u32, field: u32) -> u32
        requires { HasNumber self.now.fields file field }
        ensures { (x : declared.Exchange) → AreNumbers x self.now
            → result ≡ field_number x file field }
    {
        self.fields.as_slice()[file as usize] + field
    }
}

/// The number of the first variable of each of these blocks.
fn first_variables(alloc: Global, blocks: &[Block]) -> Result<Seq<u32>, Memory>
    requires { total (map variable_count blocks.now) < 2 ^ 32 }
    ensures { IfOk result (λ firsts. firsts ≡ sums_from 0 (map variable_count blocks.now)) }
{
    let mut firsts = Seq::new(alloc);
    let mut first: u32 = 0;
    for block in blocks {
        firsts.push(first)?;
        first += block.variables.len() as u32;
    }
    Ok(firsts)
}

/// The number of the first field of each file of these blocks.
fn first_fields(alloc: Global, blocks: &[Block]) -> Result<Seq<u32>, Memory>
    requires { total (field_counts blocks.now) < 2 ^ 32 }
    ensures { IfOk result (λ firsts. firsts ≡ sums_from 0 (field_counts blocks.now)) }
{
    let mut firsts = Seq::new(alloc);
    let mut first: u32 = 0;
    for block in blocks {
        first = push_firsts(block.files.as_slice(), first, &mut firsts)?;
    }
    Ok(firsts)
}

/// Appends the number of the first field of each of these files, where that of the first file is
/// given, and gives the number after their last field.
#[tactic(auto, using(crate::proofs::Numbering::sums_begin))]
fn push_firsts(files: &[File], start: u32, firsts: &mut Seq<u32>) -> Result<u32, Memory>
    requires { start + total (map field_count files.now) < 2 ^ 32 }
    ensures list { IfOk result (λ _.
        firsts.new ≡ firsts.old ++ sums_from start (map field_count files.now)) }
    ensures next { IfOk result (λ next. next ≡ start + total (map field_count files.now)) }
{
    let mut first = start;
    for file in files {
        firsts.push(first)?;
        first += file.fields.len() as u32;
    }
    Ok(first)
}
