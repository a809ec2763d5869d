ghost use Rattle.std.specs.Prelude.{◌≡◌, ◌++◌, ◌∷◌, [], ◌<◌, ◌^◌, length, slice_index_or, IfOk, OnOk, OnErr};
ghost use Rattle.plank_search.specs.Meanings.{goal_clause};

use plank_base::OutOfMemory;
use sqlite_items::Items;
use std::alloc::Global;
use std::marker::Model;

/// That a part has a value.
#[derive(Clone, Copy, PartialEq, Eq, Debug)]
pub struct Literal {
    /// The number of the part. A part past the last is no.
    pub part: usize,
    /// The value that it has where the literal holds.
    pub value: bool,
}

/// Static clauses: lists of literals, of each of which one has to hold.
///
/// Contracts see the list of the clauses, in the order in which they were added.
#[derive(Debug, Drop)]
pub struct Clauses {
    clauses: Vec<Items<Literal>>,
}

impl Model for Clauses {
    ghost use Rattle.std.specs.Prelude.{List};
    ghost use Rattle.plank_search.specs.declared.clauses.Literal.{Literal};

    ghost Value = { List (List Literal) };

    ghost view = { λ clauses. clauses.clauses.items };
}

impl Clauses {
    /// No clauses; takes no memory.
    pub fn new(alloc: Global) -> Clauses
        ensures { result ≡ [] }
    {
        Clauses {
            clauses: Vec::new(alloc),
        }
    }

    /// Adds a clause. The empty clause holds nowhere; where memory is refused nothing is added.
    pub fn add(&mut self, alloc: Global, literals: &[Literal]) -> Result<(), OutOfMemory>
        ensures added { OnOk result (self.new ≡ self.old ++ literals.now ∷ []) }
        ensures refused { OnErr result (self.new ≡ self.old) }
    {
        let clause = Items::from_vec(Vec::from_slice(alloc, literals)?);
        self.clauses.push(clause)?;
        Ok(())
    }

    /// One clause: that at least one of the goals is yes.
    pub(crate) fn of_goals(alloc: Global, goals: &[usize]) -> Result<Clauses, OutOfMemory>
        ensures { IfOk result (λ clauses. clauses ≡ goal_clause goals.now ∷ []) }
    {
        let mut clauses = Clauses::new(alloc);
        let clause = goal_literals(alloc, goals)?;
        clauses.add(alloc, clause.as_slice())?;
        Ok(clauses)
    }

    /// How many clauses there are.
    pub fn len(&self) -> usize
        ensures count { result ≡ length self.now }
        ensures within { result < 2 ^ 63 }
    {
        self.clauses.len()
    }

    /// The literals of a clause.
    pub fn get(&self, clause: usize) -> &[Literal]
        requires { clause < length self.now }
        ensures { result.now ≡ slice_index_or self.now clause [] }
    {
        self.clauses[clause].as_slice()
    }
}

fn goal_literals(alloc: Global, goals: &[usize]) -> Result<Vec<Literal>, OutOfMemory>
    ensures { IfOk result (λ literals. literals.items ≡ goal_clause goals.now) }
{
    let mut literals = Vec::with_capacity(alloc, goals.len())?;
    for goal in goals {
        literals.push(Literal {
            part: *goal,
            value: true,
        })?;
    }
    Ok(literals)
}

/// The clauses of a system, and behind them those of one question about it.
///
/// Contracts see the list of both.
#[derive(Debug, Drop)]
pub(crate) struct AllClauses<'a> {
    system: &'a Clauses,
    question: &'a Clauses,
}

impl<'a> Model for AllClauses<'a> {
    ghost use Rattle.std.specs.Prelude.{List, ◌++◌};
    ghost use Rattle.plank_search.specs.declared.clauses.Literal.{Literal};

    ghost Value = { List (List Literal) };

    ghost view = { λ clauses. clauses.system.now ++ clauses.question.now };
}

impl<'a> AllClauses<'a> {
    pub(crate) fn new(system: &'a Clauses, question: &'a Clauses) -> AllClauses<'a>
        ensures { result ≡ system.now ++ question.now }
    {
        AllClauses { system, question }
    }

    /// How many clauses there are.
    pub(crate) fn len(&self) -> usize
        ensures { result ≡ length self.now }
    {
        self.system.len() + self.question.len()
    }

    /// The number of the question's first clause.
    pub(crate) fn first_of_question(&self) -> usize {
        self.system.len()
    }

    /// The literals of a clause.
    pub(crate) fn get(&self, clause: usize) -> &[Literal]
        requires { clause < length self.now }
        ensures { result.now ≡ slice_index_or self.now clause [] }
    {
        let first = self.system.len();
        if clause < first {
            self.system.get(clause)
        } else {
            self.question.get(clause - first)
        }
    }
}
