ghost use Rattle.std.specs.Prelude.{◌≡◌, ◌++◌, OnOk};
ghost use Rattle.std.specs.List.{flat_map};
ghost use Rattle.plank_report.specs.Names.{node_name};
ghost use Rattle.plank_report.specs.Facts.{literal_text, fact_text, fact_line};

use crate::names::Names;
use crate::pieces::{append, append_four, append_three, append_two};
use plank_base::OutOfMemory;
use plank_fact::Fact;
use plank_pic::Literal;
use plank_prog::Reference;

impl<'a> Names<'a> {
    // What is said of two names.
    fn append_pair(
        &self,
        out: &mut Vec<u8>,
        left: Reference,
        relation: &[u8],
        right: Reference,
    ) -> Result<(), OutOfMemory>
        ensures { OnOk result (out.new.items ≡ out.old.items ++ node_name self.now.method.now left
            ++ relation.now ++ node_name self.now.method.now right) }
    {
        append_three(out, self.node(left), relation, self.node(right))
    }

    // What is said of one name.
    fn append_said(
        &self,
        out: &mut Vec<u8>,
        node: Reference,
        said: &[u8],
    ) -> Result<(), OutOfMemory>
        ensures { OnOk result (out.new.items
            ≡ out.old.items ++ node_name self.now.method.now node ++ said.now) }
    {
        append_two(out, self.node(node), said)
    }

    fn append_literal(&self, out: &mut Vec<u8>, literal: Literal) -> Result<(), OutOfMemory>
        ensures { OnOk result (out.new.items
            ≡ out.old.items ++ literal_text self.now.header.now self.now.method.now literal) }
    {
        match literal {
            Literal::Same { left, right } => self.append_pair(out, left, b" == ", right),
            Literal::Apart { left, right } => self.append_pair(out, left, b" != ", right),
            Literal::Null { name } => self.append_said(out, name, b" == null"),
            Literal::NotNull { name } => self.append_said(out, name, b" != null"),
            Literal::KeyBelow { left, right } => {
                append_four(out, self.node(left), b".key < ", self.node(right), b".key")
            }
            Literal::KeyAtMost { left, right } => {
                append_four(out, self.node(left), b".key <= ", self.node(right), b".key")
            }
            Literal::BelowArgument { name } => {
                append_three(out, self.node(name), b".key < ", self.argument())
            }
            Literal::AtMostArgument { name } => {
                append_three(out, self.node(name), b".key <= ", self.argument())
            }
            Literal::AboveArgument { name } => {
                append_four(out, self.argument(), b" < ", self.node(name), b".key")
            }
            Literal::AtLeastArgument { name } => {
                append_four(out, self.argument(), b" <= ", self.node(name), b".key")
            }
            Literal::KeyIsMin { name } => self.append_said(out, name, b".key == MIN"),
            Literal::AboveMin { name } => append_three(out, b"MIN < ", self.node(name), b".key"),
            Literal::BelowMax { name } => self.append_said(out, name, b".key < MAX"),
            Literal::KeyIsMax { name } => self.append_said(out, name, b".key == MAX"),
            Literal::Flag { name, flag } => {
                append_three(out, self.node(name), b".", self.flag(flag))
            }
            Literal::NoFlag { name, flag } => {
                append_four(out, b"!", self.node(name), b".", self.flag(flag))
            }
            Literal::Leads { name, pointer, to } => {
                append_three(out, self.node(name), b".", self.pointer(pointer))?;
                append_two(out, b" == ", self.node(to))
            }
            Literal::LeadsNowhere { name, pointer } => {
                append_four(
                    out,
                    self.node(name),
                    b".",
                    self.pointer(pointer),
                    b" == null",
                )
            }
            Literal::Locked { name } => self.append_said(out, name, b" locked"),
            Literal::Owned { name } => self.append_said(out, name, b" owned"),
            Literal::Shared { name } => self.append_said(out, name, b" shared"),
            Literal::Visited { name } => {
                append_three(out, self.argument(), b" in ", self.node(name))
            }
            Literal::InSet => append_two(out, self.argument(), b" in set"),
            Literal::NotInSet => append_two(out, self.argument(), b" not in set"),
            Literal::Chain { from, to } => {
                append_four(out, b"chain ", self.node(from), b" ", self.node(to))
            }
            Literal::Spent => append(out, b"spent"),
            Literal::Unspent => append(out, b"unspent"),
        }
    }

    fn append_fact(&self, out: &mut Vec<u8>, fact: Fact) -> Result<(), OutOfMemory>
        ensures { OnOk result (out.new.items
            ≡ out.old.items ++ fact_text self.now.header.now self.now.method.now fact) }
    {
        match fact {
            Fact::Now(literal) => self.append_literal(out, literal),
            Fact::Past(literal) => {
                append(out, b"past ")?;
                self.append_literal(out, literal)
            }
        }
    }

    /// Adds a line for each fact.
    pub fn append_facts(&self, out: &mut Vec<u8>, facts: &[Fact]) -> Result<(), OutOfMemory>
        ensures { OnOk result (out.new.items ≡ out.old.items
            ++ flat_map (fact_line self.now.header.now self.now.method.now) facts.now) }
    {
        for fact in facts {
            append(out, b"  ")?;
            self.append_fact(out, *fact)?;
            append(out, b"\n")?;
        }
        Ok(())
    }
}
