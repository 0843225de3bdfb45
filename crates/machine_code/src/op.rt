/// An instruction. `r` and `s` are registers, `i` a local, `k` the place of a value, `w` a word,
/// `a` an address, `p` a point, `f` a file, `m` a signal, `x` an entry or a signal, `l` a level
/// from 0 for A, `q` the kind of a send, `d` a width in bits, and `n` any number.
#[derive(Clone, Copy)]
pub enum Op {
    /// A statement begins, at the point p.
    Stmt { p: u32 },
    /// The number n into r.
    Ldi { r: u8, n: u32 },
    /// The local i into r.
    Ldt { r: u8, i: u8 },
    /// r into the local i.
    Stt { i: u8, r: u8 },
    /// The entry value k into r.
    Lde { r: u8, k: u8 },
    /// The answer value k into r.
    Lda { r: u8, k: u8 },
    /// The sum of r and s into r, modulo 2^32.
    Add { r: u8, s: u8 },
    /// r less s into r, modulo 2^32.
    Sub { r: u8, s: u8 },
    /// The product of r and s into r, modulo 2^32.
    Mul { r: u8, s: u8 },
    /// The whole part of r through s into r; faults where s is 0.
    Div { r: u8, s: u8 },
    /// What r through s leaves into r; faults where s is 0.
    Rem { r: u8, s: u8 },
    /// 1 into r where r is s, else 0.
    Eq { r: u8, s: u8 },
    /// 1 into r where r is not s, else 0.
    Ne { r: u8, s: u8 },
    /// 1 into r where r is below s, else 0.
    Lt { r: u8, s: u8 },
    /// 1 into r where r is at most s, else 0.
    Le { r: u8, s: u8 },
    /// 1 into r where r is above s, else 0.
    Gt { r: u8, s: u8 },
    /// 1 into r where r is at least s, else 0.
    Ge { r: u8, s: u8 },
    /// 1 into r where neither r nor s is 0, else 0.
    And { r: u8, s: u8 },
    /// 1 into r where r or s is not 0, else 0.
    Or { r: u8, s: u8 },
    /// Goes to a.
    Jmp { a: u32 },
    /// Goes to a where r is 0.
    Jz { r: u8, a: u32 },
    /// The word w into r.
    Ldw { r: u8, w: u32 },
    /// r into the word w.
    Stw { w: u32, r: u8 },
    /// Faults where r does not fit d bits.
    Ckw { r: u8, d: u8 },
    /// Faults where r is not below n.
    Ckp { r: u8, n: u32 },
    /// Faults where the record r of the file f is not in the chain.
    Own { r: u8, f: u32 },
    /// The word w + n * s into r.
    Ldx { r: u8, w: u32, n: u32, s: u8 },
    /// r into the word w + n * s.
    Stx { w: u32, n: u32, s: u8, r: u8 },
    /// Faults where the job has no forlopp.
    Ckf,
    /// The record r of the file f joins the chain.
    Chn { r: u8, f: u32 },
    /// The record r of the file f leaves the chain.
    Unc { r: u8, f: u32 },
    /// r joins the outgoing values.
    Arg { r: u8 },
    /// Sends the outgoing values to x: with q 0 to an entry at the level l, with q 1 the same in a
    /// new forlopp, with q 2 out of the exchange.
    Snd { q: u8, x: u32, l: u8 },
    /// Goes to a in another block, with the outgoing values.
    Dir { a: u32 },
    /// The same, and a frame waits here for the answer m.
    Call { a: u32, m: u32 },
    /// Answers the frame that waits for m with the outgoing values.
    Ret { m: u32 },
    /// Goes to a in another block, with the first n entry values and zeros after them.
    Trf { a: u32, n: u32 },
    /// The job ends, unless a frame waits.
    End,
}
