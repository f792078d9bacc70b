#![tactic(auto)]
// `gen_call`, `gen_syscall` and `gen_memcmp_call`. The entries are lent from the return type on; the callee is behind it and
// the arguments behind the callee. The mark of a name says how it is called.
ghost use Rattle.std.specs.Prelude.{◌≡◌, ◌==◌, ℕ, ◌+◌, ◌*◌, ◌%◌, ◌^◌, ◌≤◌, List, length, slice_index};
ghost use Rattle.book.specs.Ast.{Ty, Value, TypedVal};
ghost use Rattle.book.specs.Entry.{Entry, entries};
ghost use Rattle.book.specs.Kinds.{InstTag};
ghost use Rattle.book.specs.Fields.{Meanings, inst_fields};
ghost use Rattle.book.specs.Work.{name_words};
ghost use Rattle.lowering.specs.Context.{FnCtx};
ghost use Rattle.lowering.specs.Call.{is_void, push_args, call_target, gen_plain_call, gen_syscall, gen_memcmp_call, gen_call};
ghost use Rattle.gen_lines.specs.Puts.{Puts};
ghost use Rattle.gen_values.specs.Values.{dest_of};
ghost use Rattle.gen_values.specs.Maps.{Locals, Maps};
ghost use Rattle.gen_values.specs.Fields.{Fields, ValueAt, OperandAt};
ghost use Rattle.gen_fields.specs.Given.{Given};
ghost use Rattle.gen_call.specs.Args.{Args, ArgsLent};
ghost use Rattle.gen_call.specs.Calls.{class_number, class_of, ClassReaches, Marks, Defined, callee as calleeFields};

use assembly::line;
use book::entry;
use book::refusal::Refusal;
use gen_fields::push_typed;
use gen_lines::{Reached, put, refuse};
use gen_values::{need, push_value, store_or_pop};
use layout_memo::skip;

// The number of arguments, of which the first is at the front. A `while`: each turn goes on by the entries of an argument.
fn count_args(kinds: &[u64], words: &[u64], names: u64) -> u64
    requires { ArgsLent names (entries kinds.now words.now) }
    ensures { (args : List TypedVal) → Args names args (entries kinds.now words.now) → result ≡ length args }
{
    let mut at: usize = 0;
    let mut args: u64 = 0;
    while kinds[at] != entry::END {
        at += skip(&kinds[at..], &words[at..], names) + 1;
        args += 1;
    }
    args
}

// Every argument, in order, of which the first is at the front. A `while` for the same reason.
fn push_args(
    kinds: &[u64],
    words: &[u64],
    names: u64,
    work: &[u64],
    lines: &mut [u16],
    operands: &mut [u64],
    s: Reached,
) -> Reached
    requires { ArgsLent names (entries kinds.now words.now) × (name_words names ≤ length work.now) }
    ensures { (args : List TypedVal) (c : FnCtx) → Args names args (entries kinds.now words.now) → Locals c names work.now
        → Puts (push_args c args) s result lines.old operands.old lines.new operands.new }
{
    let mut at: usize = 0;
    let mut reached = s;
    while kinds[at] != entry::END {
        let type_kinds = &kinds[at..];
        let type_words = &words[at..];
        let value = skip(type_kinds, type_words, names);
        reached = push_typed(
            type_kinds, type_words, value, work, lines, operands, reached,
        );
        at += value + 1;
    }
    reached
}

// How a value is called: as a function that is defined here, as a syscall, as memcmp; other is a global that may not be called, or
// no global.
#[derive(Clone, Copy)]
enum Called {
    Other,
    Defined,
    Syscall,
    Memcmp,
}

impl Called {
    fn is_defined(self) -> bool
        ensures { result ≡ (class_number self == 1) }
    {
        matches!(self, Called::Defined)
    }
}

// How the value at the front is called, by its mark.
fn call_class(kinds: &[u64], words: &[u64], work: &[u64]) -> Called
    requires { ClassReaches kinds.now words.now work.now }
    ensures { (m : ℕ) (c : FnCtx) (v : Value) → ValueAt m kinds.now words.now 0 v → Marks m c work.now → class_number result ≡ class_of c.codegen v }
{
    if kinds[0] != entry::GLOBAL {
        return Called::Other;
    }
    let mark = work[book::work::WORDS * (words[0] as usize) + book::work::MARK];
    match mark % book::work::OVERFLOW {
        book::work::CALL_DEFINED => Called::Defined,
        book::work::CALL_SYSCALL => Called::Syscall,
        book::work::CALL_MEMCMP => Called::Memcmp,
        _ => Called::Other,
    }
}

// The operand of a call.
fn call_operand(name: u64, args: u64) -> u64
    ensures { result ≡ (name * 256 + args) % 2 ^ 64 }
{
    (name << 8).wrapping_add(args)
}

// The target at the front, behind its arguments: a global, of which `defined` says whether it is defined here, or a local.
fn call_target(
    kinds: &[u64],
    words: &[u64],
    defined: bool,
    args: u64,
    work: &[u64],
    lines: &mut [u16],
    operands: &mut [u64],
    s: Reached,
) -> Reached
    requires { OperandAt kinds.now words.now 0 work.now }
    ensures { (m : ℕ) (c : FnCtx) (v : Value) → ValueAt m kinds.now words.now 0 v → Locals c m work.now → Defined c v defined
        → Puts (call_target c v args) s result lines.old operands.old lines.new operands.new }
{
    if kinds[0] == entry::GLOBAL {
        let known = need(s, defined, Refusal::Call);
        return put(
            lines,
            operands,
            known,
            line::CALL,
            call_operand(words[0], args),
        );
    }
    if kinds[0] == entry::LOCAL {
        let address = push_value(kinds, words, 64, work, lines, operands, s);
        return put(lines, operands, address, line::CALL_FP, args);
    }
    refuse(s, Refusal::Call)
}

// `gen_call` of the callee at the front, with its arguments behind it: at most 255.
fn gen_plain_call(
    kinds: &[u64],
    words: &[u64],
    defined: bool,
    names: u64,
    dest: u64,
    work: &[u64],
    lines: &mut [u16],
    operands: &mut [u64],
    s: Reached,
) -> Reached
    requires { Given names calleeFields (entries kinds.now words.now) dest work.now }
    ensures { (p : Meanings calleeFields) (c : FnCtx) → Fields names calleeFields p (entries kinds.now words.now) → Locals c names work.now
        → Defined c p.0 defined → Puts (gen_plain_call c (dest_of dest) p.0 p.1.0) s result lines.old operands.old lines.new operands.new }
{
    let arg_kinds = &kinds[1..];
    let arg_words = &words[1..];
    let args = count_args(arg_kinds, arg_words, names);
    let few = need(s, args <= 255, Refusal::Call);
    let pushed = push_args(arg_kinds, arg_words, names, work, lines, operands, few);
    let called = call_target(kinds, words, defined, args, work, lines, operands, pushed);
    store_or_pop(dest, work, lines, operands, called)
}

// `gen_syscall` of the callee at the front: a void one pushes nothing.
fn gen_syscall(
    kinds: &[u64],
    words: &[u64],
    void: bool,
    names: u64,
    dest: u64,
    work: &[u64],
    lines: &mut [u16],
    operands: &mut [u64],
    s: Reached,
) -> Reached
    requires { Given names calleeFields (entries kinds.now words.now) dest work.now }
    ensures { (p : Meanings calleeFields) (c : FnCtx) (ty : Ty) → Fields names calleeFields p (entries kinds.now words.now)
        → Locals c names work.now → void ≡ is_void ty
        → Puts (gen_syscall c (dest_of dest) (slice_index words.now 0) ty p.1.0) s result lines.old operands.old lines.new operands.new }
{
    let pushed = push_args(&kinds[1..], &words[1..], names, work, lines, operands, s);
    let called = put(lines, operands, pushed, line::SYSCALL, words[0]);
    if void {
        return called;
    }
    store_or_pop(dest, work, lines, operands, called)
}

// `gen_memcmp_call`, of which the callee is at the front.
fn gen_memcmp_call(
    kinds: &[u64],
    words: &[u64],
    names: u64,
    dest: u64,
    work: &[u64],
    lines: &mut [u16],
    operands: &mut [u64],
    s: Reached,
) -> Reached
    requires { Given names calleeFields (entries kinds.now words.now) dest work.now }
    ensures { (p : Meanings calleeFields) (c : FnCtx) → Fields names calleeFields p (entries kinds.now words.now) → Locals c names work.now
        → Puts (gen_memcmp_call c (dest_of dest) p.1.0) s result lines.old operands.old lines.new operands.new }
{
    let pushed = push_args(&kinds[1..], &words[1..], names, work, lines, operands, s);
    let called = put(lines, operands, pushed, line::SYSCALL_MEMCMP, 0);
    store_or_pop(dest, work, lines, operands, called)
}

// A call, with its result: which of the three its callee says.
pub fn gen_call(
    kinds: &[u64],
    words: &[u64],
    names: u64,
    dest: u64,
    work: &[u64],
    lines: &mut [u16],
    operands: &mut [u64],
    s: Reached,
) -> Reached
    requires { Given names (inst_fields InstTag.call) (entries kinds.now words.now) dest work.now }
    ensures { (bs : List Entry) (p : Meanings (inst_fields InstTag.call)) (c : FnCtx) → Fields names (inst_fields InstTag.call) p (entries kinds.now words.now)
        → Maps names bs c work.now → Puts (gen_call c (dest_of dest) p.0 p.1.0 p.1.1.0)
        s result lines.old operands.old lines.new operands.new }
{
    let at = skip(kinds, words, names);
    let callee_kinds = &kinds[at..];
    let callee_words = &words[at..];
    let class = call_class(callee_kinds, callee_words, work);
    match class {
        Called::Syscall => gen_syscall(
            callee_kinds,
            callee_words,
            kinds[0] == entry::VOID,
            names,
            dest,
            work,
            lines,
            operands,
            s,
        ),
        Called::Memcmp => gen_memcmp_call(
            callee_kinds,
            callee_words,
            names,
            dest,
            work,
            lines,
            operands,
            s,
        ),
        Called::Defined | Called::Other => gen_plain_call(
            callee_kinds,
            callee_words,
            class.is_defined(),
            names,
            dest,
            work,
            lines,
            operands,
            s,
        ),
    }
}
