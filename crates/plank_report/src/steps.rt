ghost use Rattle.std.specs.Prelude.{◌≡◌, ◌++◌, OnOk};
ghost use Rattle.std.specs.List.{flat_map};
ghost use Rattle.plank_report.specs.Steps.{flag_text, key_text, pointer_text, relation_text, equality_text, negation_text, truth_text, value_text, test_line, bind_line, put_line, write_line, block_lines, action_lines};

use crate::names::Names;
use crate::pieces::{append, append_four, append_three, append_two};
use plank_base::OutOfMemory;
use plank_prog::{
    Action, Bind, Block, FlagOperand, KeyOperand, KeyRelation, PointerOperand, Reference, Test,
    Value, Write,
};

fn relation_word(relation: KeyRelation) -> &'static [u8]
    ensures { result.now ≡ relation_text relation }
{
    match relation {
        KeyRelation::Equal => b" == ",
        KeyRelation::NotEqual => b" != ",
        KeyRelation::Less => b" < ",
        KeyRelation::AtMost => b" <= ",
    }
}

fn equality_word(equal: bool) -> &'static [u8]
    ensures { result.now ≡ equality_text equal }
{
    if equal { b" == " } else { b" != " }
}

fn negation_word(set: bool) -> &'static [u8]
    ensures { result.now ≡ negation_text set }
{
    if set { b"" } else { b"!" }
}

fn truth_word(value: bool) -> &'static [u8]
    ensures { result.now ≡ truth_text value }
{
    if value { b"true" } else { b"false" }
}

impl<'a> Names<'a> {
    fn append_flag(&self, out: &mut Vec<u8>, operand: FlagOperand) -> Result<(), OutOfMemory>
        ensures { OnOk result (out.new.items
            ≡ out.old.items ++ flag_text self.now.header.now self.now.method.now operand) }
    {
        append_three(out, self.node(operand.node), b".", self.flag(operand.flag))
    }

    fn append_key(&self, out: &mut Vec<u8>, operand: KeyOperand) -> Result<(), OutOfMemory>
        ensures { OnOk result (out.new.items ≡ out.old.items ++ key_text self.now.method.now operand) }
    {
        match operand {
            KeyOperand::Node(node) => append_two(out, self.node(node), b".key"),
            KeyOperand::Argument => append(out, self.argument()),
            KeyOperand::Min => append(out, b"MIN"),
            KeyOperand::Max => append(out, b"MAX"),
        }
    }

    fn append_pointer(&self, out: &mut Vec<u8>, operand: PointerOperand) -> Result<(), OutOfMemory>
        ensures { OnOk result (out.new.items
            ≡ out.old.items ++ pointer_text self.now.header.now self.now.method.now operand) }
    {
        match operand {
            PointerOperand::Null => append(out, b"null"),
            PointerOperand::Node(node) => append(out, self.node(node)),
            PointerOperand::Field { node, pointer } => {
                append_three(out, self.node(node), b".", self.pointer(pointer))
            }
        }
    }

    fn append_test(&self, out: &mut Vec<u8>, test: Test) -> Result<(), OutOfMemory>
        ensures { OnOk result (out.new.items
            ≡ out.old.items ++ test_line self.now.header.now self.now.method.now test) }
    {
        match test {
            Test::Flag { flag, set } => {
                append_two(out, b"  test ", negation_word(set))?;
                self.append_flag(out, flag)?;
                append(out, b";\n")
            }
            Test::Flags { left, right, equal } => {
                append(out, b"  test ")?;
                self.append_flag(out, left)?;
                append(out, equality_word(equal))?;
                self.append_flag(out, right)?;
                append(out, b";\n")
            }
            Test::Keys {
                left,
                relation,
                right,
            } => {
                append(out, b"  test ")?;
                self.append_key(out, left)?;
                append(out, relation_word(relation))?;
                self.append_key(out, right)?;
                append(out, b";\n")
            }
            Test::Pointers { left, right, equal } => {
                append(out, b"  test ")?;
                self.append_pointer(out, left)?;
                append(out, equality_word(equal))?;
                self.append_pointer(out, right)?;
                append(out, b";\n")
            }
            Test::LockFree { .. } | Test::LockOwn { .. } => Ok(()),
        }
    }

    fn append_bind(&self, out: &mut Vec<u8>, bind: &Bind) -> Result<(), OutOfMemory>
        ensures { OnOk result (out.new.items
            ≡ out.old.items ++ bind_line self.now.header.now self.now.method.now bind.now) }
    {
        let variable = self.node(Reference::Variable(bind.to));
        append_four(out, b"  ", variable, b" = ", self.node(bind.from))?;
        append_three(out, b".", self.pointer(bind.pointer), b";\n")
    }

    fn value(&self, value: Value) -> &'a [u8]
        ensures { result.now ≡ value_text self.now.method.now value }
    {
        match value {
            Value::Null => b"null",
            Value::Node(node) => self.node(node),
        }
    }

    // A write of a field.
    fn append_put(
        &self,
        out: &mut Vec<u8>,
        node: Reference,
        field: &[u8],
        value: &[u8],
    ) -> Result<(), OutOfMemory>
        ensures { OnOk result (out.new.items ≡ out.old.items ++ put_line self.now.method.now node field.now value.now) }
    {
        append_four(out, b"  write ", self.node(node), b".", field)?;
        append_three(out, b" = ", value, b";\n")
    }

    fn append_write(&self, out: &mut Vec<u8>, write: Write) -> Result<(), OutOfMemory>
        ensures { OnOk result (out.new.items
            ≡ out.old.items ++ write_line self.now.header.now self.now.method.now write) }
    {
        match write {
            Write::Flag { node, flag, value } => {
                self.append_put(out, node, self.flag(flag), truth_word(value))
            }
            Write::Pointer {
                node,
                pointer,
                value,
            } => self.append_put(out, node, self.pointer(pointer), self.value(value)),
            Write::TakeLock { node } => append_three(out, b"  lock ", self.node(node), b";\n"),
            Write::FreeLock { node } => append_three(out, b"  unlock ", self.node(node), b";\n"),
        }
    }

    fn append_tests(&self, out: &mut Vec<u8>, tests: &[Test]) -> Result<(), OutOfMemory>
        ensures { OnOk result (out.new.items ≡ out.old.items
            ++ flat_map (test_line self.now.header.now self.now.method.now) tests.now) }
    {
        for test in tests {
            self.append_test(out, *test)?;
        }
        Ok(())
    }

    fn append_binds(&self, out: &mut Vec<u8>, binds: &[Bind]) -> Result<(), OutOfMemory>
        ensures { OnOk result (out.new.items ≡ out.old.items
            ++ flat_map (bind_line self.now.header.now self.now.method.now) binds.now) }
    {
        for bind in binds {
            self.append_bind(out, bind)?;
        }
        Ok(())
    }

    fn append_writes(&self, out: &mut Vec<u8>, writes: &[Write]) -> Result<(), OutOfMemory>
        ensures { OnOk result (out.new.items ≡ out.old.items
            ++ flat_map (write_line self.now.header.now self.now.method.now) writes.now) }
    {
        for write in writes {
            self.append_write(out, *write)?;
        }
        Ok(())
    }

    fn append_block(&self, out: &mut Vec<u8>, block: &Block) -> Result<(), OutOfMemory>
        ensures { OnOk result (out.new.items
            ≡ out.old.items ++ block_lines self.now.header.now self.now.method.now block.now) }
    {
        self.append_tests(out, block.tests.as_slice())?;
        self.append_binds(out, block.binds.as_slice())?;
        self.append_writes(out, block.writes.as_slice())
    }

    /// Adds the lines of an action that writes.
    pub fn append_action(&self, out: &mut Vec<u8>, action: &Action) -> Result<(), OutOfMemory>
        ensures { OnOk result (out.new.items
            ≡ out.old.items ++ action_lines self.now.header.now self.now.method.now action.now) }
    {
        match action {
            Action::Block(block) => self.append_block(out, block),
            Action::Copy { .. } | Action::New { .. } | Action::Return(_) => Ok(()),
        }
    }
}
