// How long a job was.

/// What a statement counts for at most by itself, in instructions.
const STATEMENT: u64 = 32;

/// Of the instructions that a job made this part counts beside that: those of the looks of a SEIZE
/// or a FOR FIRST, and of the choices of a CASE, are made in one go, in a small part of the time
/// that others take.
const IN_ONE_GO: u64 = 64;

/// How long a job is, in instructions, that made so many of them and counted so many statements: no
/// more than so many for each statement and a part of all. So a job that looks through many records
/// is no long one by that alone.
pub fn job_length(made: u64, statements: u64) -> u64 {
    let by_statements = statements.saturating_mul(STATEMENT);
    made.min(by_statements.saturating_add(made / IN_ONE_GO))
}
