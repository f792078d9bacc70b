#![tactic(auto)]
// Which form a line's kind has: what its operand may be, and what is put for it.
ghost use Rattle.std.specs.Prelude.{◌≡◌, cond, ℕ, ◌<◌, ◌≤◌};
ghost use Rattle.print_forms.specs.Forms.{form_of, allowed_by, most_of};
ghost use Rattle.print_forms.specs.All.{allowed_all};

use assembly::line;

// The operand: the function, a name, a block, a call, a syscall, a count of slots, any number, a slot, a number of arguments,
// none.
#[derive(Clone, Copy, Debug, PartialEq, Eq)]
pub enum Form {
    Comment,
    Name,
    Block,
    Call,
    Syscall,
    Count,
    Any,
    Slot,
    Args,
    Bare,
    Unknown,
}

pub fn form_of(kind: u16) -> Form
    ensures { result ≡ form_of kind }
{
    match kind {
        line::COMMENT => Form::Comment,
        line::FN_LABEL | line::PUSH_NAME => Form::Name,
        line::BLOCK_LABEL | line::JMP_BLOCK => Form::Block,
        line::CALL => Form::Call,
        line::SYSCALL => Form::Syscall,
        line::PUSH_0N => Form::Count,
        line::PUSH | line::GET_ARG | line::SEL_FALSE..=line::JNZ_SW_CASE => Form::Any,
        line::GET_LOCAL | line::SET_LOCAL => Form::Slot,
        line::CALL_FP => Form::Args,
        line::ADD_U32..=line::BLANK => Form::Bare,
        _ => Form::Unknown,
    }
}

// Whether a line may stand: its kind is known and its operand allowed. `names` is the number of names, `function` the function's
// name; the names from `from` up to `to` start with `__uvm_`.
pub fn allowed(form: Form, x: u64, names: u64, function: u64, from: u64, to: u64) -> bool
    ensures { result ≡ allowed_by form x names function from to }
{
    match form {
        Form::Comment => x == function,
        Form::Name | Form::Block => x < names,
        Form::Call => x / 256 < names,
        Form::Syscall => (from <= x) & (x < to),
        Form::Count => (1 <= x) & (x <= 65535),
        Form::Any => true,
        Form::Slot => x <= 65535,
        Form::Args => x <= 255,
        Form::Bare => x == 0,
        Form::Unknown => false,
    }
}

// One of two values that are both there, so that no branch is taken.
pub fn pick<T: Copy>(first: bool, a: T, b: T) -> T
    ensures { result ≡ cond first a b }
{
    if first { a } else { b }
}

// The largest operand that a line of kind 7 or more may have.
fn most(kind: u16) -> u64
    ensures { result ≡ most_of kind }
{
    let slot = pick(
        (kind == line::PUSH_0N) | (kind == line::GET_LOCAL) | (kind == line::SET_LOCAL),
        65535,
        u64::MAX,
    );
    pick(
        line::ADD_U32 <= kind,
        0,
        pick(kind == line::CALL_FP, 255, slot),
    )
}

// Whether a line of kind 1 to 6, which names something, may stand: its name lies in the range that is allowed for it.
pub fn name_allowed(kind: u16, x: u64, names: u64, from: u64, to: u64) -> bool
    requires le_kind { 1 ≤ kind }
    requires kind_bound { kind < 7 }
    ensures { (function : ℕ) → result ≡ allowed_by (form_of kind) x names function from to }
{
    let name = pick(kind == line::CALL, x / 256, x);
    (pick(kind == line::SYSCALL, from, 0) <= name) & (name < pick(kind == line::SYSCALL, to, names))
}

// Whether a line of kind 7 or more may stand, whose operand is a number or none: without a branch, since these are most lines and which
// one comes next is hard to foresee.
pub fn number_allowed(kind: u16, x: u64) -> bool
    requires { 7 ≤ kind }
    ensures { (names function from to : ℕ) → result ≡ allowed_by (form_of kind) x names function from to }
{
    (kind < line::KINDS) & ((line::PUSH <= kind) | (1 <= x)) & (x <= most(kind))
}

// Whether every line may stand, of as many as both slices hold. `names` is the number of names, `function` the function's name; the
// names from `from` up to `to` start with `__uvm_`.
pub fn check_lines(
    line_kinds: &[u16],
    operands: &[u64],
    names: u64,
    function: u64,
    from: u64,
    to: u64,
) -> bool
    ensures { result ≡ allowed_all names function from to line_kinds.now operands.now }
{
    for i in 0..line_kinds.len().min(operands.len()) {
        if !allowed(
            form_of(line_kinds[i]),
            operands[i],
            names,
            function,
            from,
            to,
        ) {
            return false;
        }
    }
    true
}
