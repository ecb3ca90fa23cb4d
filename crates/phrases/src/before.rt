// One phrase's record read as its row, over what stands before it.
ghost use Rattle.std.specs.Prelude.{◌≡◌, [], ◌∷◌, ◌+◌, ◌*◌, ◌<◌, ◌≤◌, length, take, replicate};
ghost use Rattle.std.proofs.lemmas.List.Edits.{sets};
ghost use Rattle.language.specs.Numbers.{got, then, times};
ghost use Rattle.numbers.specs.Gotten.{gotten};
ghost use Rattle.phrases.specs.declared.shape.Operand.TheVariants.{Deduction, Expression};
ghost use Rattle.records.specs.Rows.{cell, flat};
ghost use Rattle.records.specs.Reading.{phrase_row, name_ref, expr_row, dedu_row, one_row, pair_row, several_row, clause_row, clauses_row};
ghost use Rattle.phrases.specs.Shapes.{operand_at, abstraction_row, shape_of, shaped_row, Begun};
ghost use Rattle.records.specs.Answers.{filled, rows_in, Put};

use crate::shape::{self, Operand, Shape};
use language::{Refusal, Rule, Why};
use records::{PhraseKind, names, rows};

// What stands before a phrase: the sheet's bytes, the names of its propositions, how many patterns it has, and the rows of n phrases.
#[derive(Clone, Copy)]
pub(crate) struct Before<'a> {
    pub(crate) s: &'a [u8],
    pub(crate) names: &'a [u32],
    pub(crate) patterns: usize,
    pub(crate) phrases: &'a [u32],
    pub(crate) n: usize,
    ghost few_patterns: { patterns ≤ 128 },
    ghost few_phrases: { n ≤ 512 },
}

impl<'a> Before<'a> {
    // The row of the phrase whose record is at a place, over the names, so many patterns, and the n phrases before it.
    pub(crate) fn phrase_row(self, row: &mut [u32], at: usize) -> Result<usize, Refusal>
        requires row_value { row.old ≡ replicate 12 0 }
        ensures { filled result row.new ≡ phrase_row self.entry.s.now self.entry.names.now self.entry.patterns (rows_in 12 self.entry.n self.entry.phrases.now) at }
    {
        let (kind, next) = numbers::read(self.s, at)?;
        if kind <= PhraseKind::DMatch as usize {
            return self.phrase_of(row, kind, at, next);
        }
        Err(Refusal(Why::OutOfRange, at))
    }

    // The row of a phrase of a kind, whose record began at start and has its operands at another place.
    fn phrase_of(
        self,
        row: &mut [u32],
        kind: usize,
        start: usize,
        at: usize,
    ) -> Result<usize, Refusal>
        requires row_value { row.old ≡ replicate 12 0 }
        requires bounds { kind ≤ 22 }
        ensures { filled result row.new ≡ shaped_row self.entry.s.now self.entry.names.now self.entry.patterns (rows_in 12 self.entry.n self.entry.phrases.now) start kind (shape_of kind) at }
    {
        let Some(shape) = shape::shape_of(kind) else {
            return Err(Refusal(Why::OutOfRange, start));
        };
        match shape {
            Shape::Name => self.name(row, kind, at),
            Shape::One(x) => self.one(row, kind, x, at),
            Shape::Two(x, y) => self.two(row, kind, x, y, at),
            Shape::Call(x) => self.call(row, kind, x, at),
            Shape::Block => self.block(row, kind, at),
            Shape::Match(x, y) => self.cases(row, kind, x, y, at),
        }
    }

    // A kind and a proposition.
    fn name(self, row: &mut [u32], kind: usize, at: usize) -> Result<usize, Refusal>
        requires row_value { row.old ≡ replicate 12 0 }
        requires bounds { kind ≤ 22 }
        ensures { filled result row.new ≡ one_row kind (name_ref self.entry.s.now self.entry.names.now) at }
    {
        let (p, next) = names::name_ref(self.names, self.s, at)?;
        words::put(row, 0, kind);
        words::put(row, 1, p);
        Ok(next)
    }

    // A kind and one operand.
    fn one(self, row: &mut [u32], kind: usize, what: Operand, at: usize) -> Result<usize, Refusal>
        requires row_value { row.old ≡ replicate 12 0 }
        requires bounds { kind ≤ 22 }
        ensures { filled result row.new ≡ one_row kind (operand_at self.entry.s.now (rows_in 12 self.entry.n self.entry.phrases.now) what) at }
    {
        let (x, next) = self.operand(what, at)?;
        words::put(row, 0, kind);
        words::put(row, 1, x);
        Ok(next)
    }

    // A kind and two operands.
    fn two(
        self,
        row: &mut [u32],
        kind: usize,
        first: Operand,
        second: Operand,
        at: usize,
    ) -> Result<usize, Refusal>
        requires row_value { row.old ≡ replicate 12 0 }
        requires bounds { kind ≤ 22 }
        ensures { filled result row.new ≡ pair_row kind (operand_at self.entry.s.now (rows_in 12 self.entry.n self.entry.phrases.now) first) (operand_at self.entry.s.now (rows_in 12 self.entry.n self.entry.phrases.now) second) at }
    {
        let (x, b) = self.operand(first, at)?;
        let (y, next) = self.operand(second, b)?;
        words::put(row, 0, kind);
        words::put(row, 1, x);
        words::put(row, 2, y);
        Ok(next)
    }

    // A kind, an expression, and a count of arguments with the arguments.
    fn call(self, row: &mut [u32], kind: usize, what: Operand, at: usize) -> Result<usize, Refusal>
        requires row_value { row.old ≡ replicate 12 0 }
        requires bounds { kind ≤ 22 }
        ensures { filled result row.new ≡ then (operand_at self.entry.s.now (rows_in 12 self.entry.n self.entry.phrases.now) Expression at) (λ e. several_row self.entry.s.now 0 4 (kind ∷ (e ∷ [])) (operand_at self.entry.s.now (rows_in 12 self.entry.n self.entry.phrases.now) what)) }
    {
        let (e, next) = self.operand(Operand::Expression, at)?;
        words::put(row, 0, kind);
        words::put(row, 1, e);
        self.several(row, 2, 0, 4, what, next)
    }

    // A kind and a count of deductions with the deductions.
    fn block(self, row: &mut [u32], kind: usize, at: usize) -> Result<usize, Refusal>
        requires row_value { row.old ≡ replicate 12 0 }
        requires bounds { kind ≤ 22 }
        ensures { filled result row.new ≡ several_row self.entry.s.now 1 8 (kind ∷ []) (operand_at self.entry.s.now (rows_in 12 self.entry.n self.entry.phrases.now) Deduction) at }
    {
        words::put(row, 0, kind);
        self.several(row, 1, 1, 8, Operand::Deduction, at)
    }

    // A kind, a phrase, and a count of clauses with the clauses.
    fn cases(
        self,
        row: &mut [u32],
        kind: usize,
        first: Operand,
        body: Operand,
        at: usize,
    ) -> Result<usize, Refusal>
        requires row_value { row.old ≡ replicate 12 0 }
        requires bounds { kind ≤ 22 }
        ensures { filled result row.new ≡ then (operand_at self.entry.s.now (rows_in 12 self.entry.n self.entry.phrases.now) first at) (λ e. clauses_row self.entry.s.now self.entry.patterns (kind ∷ (e ∷ [])) (operand_at self.entry.s.now (rows_in 12 self.entry.n self.entry.phrases.now) body)) }
    {
        let (e, next) = self.operand(first, at)?;
        words::put(row, 0, kind);
        words::put(row, 1, e);
        self.clauses(row, 2, body, next)
    }

    // A count from low to top and that many operands, behind the m numbers that the row has.
    fn several(
        self,
        row: &mut [u32],
        m: usize,
        low: usize,
        top: usize,
        what: Operand,
        at: usize,
    ) -> Result<usize, Refusal>
        requires begun { Begun m row.old }
        requires bounds { m + top < 12 }
        ensures { filled result row.new ≡ several_row self.entry.s.now low top (take m row.old) (operand_at self.entry.s.now (rows_in 12 self.entry.n self.entry.phrases.now) what) at }
    {
        let (count, next) = numbers::read_from(self.s, at, low, top)?;
        words::put(row, m, count);
        self.operands(row, m + 1, count, what, next)
    }

    // A count of clauses and the clauses, behind the m numbers that the row has.
    fn clauses(self, row: &mut [u32], m: usize, body: Operand, at: usize) -> Result<usize, Refusal>
        requires begun { Begun m row.old }
        requires bounds { m ≤ 3 }
        ensures { filled result row.new ≡ clauses_row self.entry.s.now self.entry.patterns (take m row.old) (operand_at self.entry.s.now (rows_in 12 self.entry.n self.entry.phrases.now) body) at }
    {
        let (count, next) = numbers::read_from(self.s, at, 1, 4)?;
        words::put(row, m, count);
        self.clause_list(row, m + 1, count, body, next)
    }

    // So many operands, stored from a place of the row on.
    fn operands(
        self,
        row: &mut [u32],
        from: usize,
        count: usize,
        what: Operand,
        at: usize,
    ) -> Result<usize, Refusal>
        requires { from + count ≤ 12 }
        ensures { filled result row.new ≡ then (times count (λ acc. operand_at self.entry.s.now (rows_in 12 self.entry.n self.entry.phrases.now) what) [] at) (λ xs. got (sets row.old from xs)) }
    {
        let mut p = at;
        for i in 0..count {
            let (x, next) = self.operand(what, p)?;
            words::put(row, from + i, x);
            p = next;
        }
        Ok(p)
    }

    // So many clauses, stored from a place of the row on.
    fn clause_list(
        self,
        row: &mut [u32],
        from: usize,
        count: usize,
        body: Operand,
        at: usize,
    ) -> Result<usize, Refusal>
        requires { from + 2 * count ≤ 12 }
        ensures { filled result row.new ≡ then (times count (λ acc. clause_row self.entry.s.now self.entry.patterns (operand_at self.entry.s.now (rows_in 12 self.entry.n self.entry.phrases.now) body)) [] at) (λ cs. got (sets row.old from (flat cs))) }
    {
        let mut p = at;
        for i in 0..count {
            p = self.clause(row, from + 2 * i, body, p)?;
        }
        Ok(p)
    }

    // A clause, a pattern's number and a phrase's, stored at a place of the row.
    fn clause(self, row: &mut [u32], to: usize, body: Operand, at: usize) -> Result<usize, Refusal>
        requires { to < 12 }
        ensures { filled result row.new ≡ then (clause_row self.entry.s.now self.entry.patterns (operand_at self.entry.s.now (rows_in 12 self.entry.n self.entry.phrases.now) body) at) (λ c. got (sets row.old to c)) }
    {
        let (q, b) = numbers::read_below(self.s, at, self.patterns)?;
        let (k, next) = self.operand(body, b)?;
        words::put(row, to, q);
        words::put(row, to + 1, k);
        Ok(next)
    }

    // The operand at a place, over the n phrases before.
    fn operand(self, what: Operand, at: usize) -> Result<(usize, usize), Refusal>
        ensures { gotten result ≡ operand_at self.entry.s.now (rows_in 12 self.entry.n self.entry.phrases.now) what at }
    {
        match what {
            Operand::Variable => numbers::read_from(self.s, at, 0, 255),
            Operand::Constructor => numbers::read_from(self.s, at, 0, 4),
            Operand::Rule => numbers::read_from(
                self.s,
                at,
                Rule::Claim as usize,
                Rule::FalseElim as usize,
            ),
            Operand::Parameters => numbers::read_from(self.s, at, 0, 4),
            Operand::Phrase => numbers::read_below(self.s, at, self.n),
            Operand::Expression => self.expression(at),
            Operand::Deduction => self.deduction(at),
            Operand::Abstraction => self.abstraction(at),
        }
    }

    // An earlier expression.
    fn expression(self, at: usize) -> Result<(usize, usize), Refusal>
        ensures { gotten result ≡ expr_row self.entry.s.now (rows_in 12 self.entry.n self.entry.phrases.now) at }
    {
        let (k, next) = numbers::read_below(self.s, at, self.n)?;
        if self.kind_of(k) < PhraseKind::MethodCall as usize {
            return Ok((k, next));
        }
        Err(Refusal(Why::WrongReference, at))
    }

    // An earlier deduction.
    pub(crate) fn deduction(self, at: usize) -> Result<(usize, usize), Refusal>
        ensures { gotten result ≡ dedu_row self.entry.s.now (rows_in 12 self.entry.n self.entry.phrases.now) at }
    {
        let (k, next) = numbers::read_below(self.s, at, self.n)?;
        if PhraseKind::MethodCall as usize <= self.kind_of(k) {
            return Ok((k, next));
        }
        Err(Refusal(Why::WrongReference, at))
    }

    // An earlier function or method.
    fn abstraction(self, at: usize) -> Result<(usize, usize), Refusal>
        ensures { gotten result ≡ abstraction_row self.entry.s.now (rows_in 12 self.entry.n self.entry.phrases.now) at }
    {
        let (k, next) = numbers::read_below(self.s, at, self.n)?;
        let kind = self.kind_of(k);
        if kind == PhraseKind::Function as usize || kind == PhraseKind::Method as usize {
            return Ok((k, next));
        }
        Err(Refusal(Why::WrongReference, at))
    }

    // The kind of phrase k, one of the first n.
    fn kind_of(self, k: usize) -> usize
        requires { k < self.n }
        ensures { result ≡ cell (rows_in 12 self.entry.n self.entry.phrases.now) k 0 }
    {
        words::at(self.phrases, rows::PHRASE * k)
    }
}
