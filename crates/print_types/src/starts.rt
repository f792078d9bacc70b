// Where a name stands: the start of every name is kept, and behind them the end of the bytes, as the check of the names notes them; or the
// start of every 8th name, from which a name is reached in 7 steps at most.
ghost use Rattle.std.specs.Prelude.{◌≡◌, false, ◌*◌, ◌<◌, ◌≤◌, length};
ghost use Rattle.names.specs.Name.{lines, start_of, name_at};
ghost use Rattle.print_types.specs.Starts.{Sound, Starts};

// Notes the starts of the names 0, 8, 16 and so on, in one pass.
pub fn note_eighths(names: &[u8], starts: &mut [u64])
    requires sound { Sound names.now }
    requires names_len_bound { length (lines names.now) ≤ 8 * length starts.old }
    ensures { Starts false names.now starts.new }
{
    let mut at: usize = 0;
    let mut i: usize = 0;
    // (no `for`: a step is as long as a name)
    while at < names.len() {
        if i % 8 == 0 {
            starts[i / 8] = at as u64;
        }
        at = names_spelling::name_end(names, at) + 1;
        i += 1;
    }
}

// The place of the first byte of the name numbered x, from the starts of every 8th.
fn name_start(names: &[u8], starts: &[u64], x: u64) -> usize
    requires starts { Starts false names.now starts.now }
    requires x_in_bounds { x < length (lines names.now) }
    ensures { result ≡ start_of (lines names.now) x }
{
    let number = x as usize;
    let mut at = starts[number / 8] as usize;
    for _ in 0..number % 8 {
        at = names_spelling::name_end(names, at) + 1;
    }
    at
}

// The bytes of the name numbered x: where the start of every name is kept, up to the byte before the next one's.
pub fn name_of<'a>(names: &'a [u8], starts: &[u64], every: bool, x: u64) -> &'a [u8]
    requires starts { Starts every names.now starts.now }
    requires x_in_bounds { x < length (lines names.now) }
    ensures { result.now ≡ name_at (lines names.now) x }
{
    if every {
        let number = x as usize;
        let from = starts[number] as usize;
        let to = starts[number + 1] as usize - 1;
        return &names[from..to];
    }
    let at = name_start(names, starts, x);
    let end = names_spelling::name_end(names, at);
    &names[at..end]
}
