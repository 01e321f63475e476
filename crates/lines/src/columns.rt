// Numbers in columns of three bytes.
ghost use Rattle.std.specs.Prelude.{◌≡◌, ◌*◌, ◌/◌, ◌%◌, ◌<◌, length, Some, MatchOption};
ghost use Rattle.std.specs.Bool.{then_some};
ghost use Rattle.lines.specs.Columns.{column, has_room, is_column, number_at, worth, written};

// Whether three bytes are a column: one, two or three digits with blanks in front.
fn is_column(a: u8, b: u8, c: u8) -> bool
    ensures digits_behind_blanks { result ≡ is_column a b c }
{
    match [a, b] {
        [b' ', b' '] => c.is_ascii_digit(),
        [b' ', _] => b.is_ascii_digit() && c.is_ascii_digit(),
        _ => a.is_ascii_digit() && b.is_ascii_digit() && c.is_ascii_digit(),
    }
}

// What a byte counts in its place: a digit its value, a blank nothing.
fn worth_of(b: u8) -> u16
    ensures digit_value_or_0 { result ≡ worth b }
    ensures less_than_10 { result < 10 }
{
    if b.is_ascii_digit() {
        (b - b'0') as u16
    } else {
        0
    }
}

/// The number in three bytes, if they are a column.
#[tactic(auto, unfolding(crate::specs::Columns::number_at))]
pub fn read_column(bytes: [u8; 3]) -> Option<u16>
    ensures reads_the_column { result ≡ number_at bytes 0 }
{
    let [a, b, c] = bytes;
    if !is_column(a, b, c) {
        return None;
    }
    Some(100 * worth_of(a) + 10 * worth_of(b) + worth_of(c))
}

// How often `unit` goes into `n`, and what is left. Taken off again and again by a rule of the project: the image has no helper that divides.
fn take_off(n: u16, unit: u16) -> (u8, u16)
    requires unit_is_not_0 { 0 < unit }
    requires less_than_10_units { n < 10 * unit }
    ensures quotient_by_the_unit { result.0 ≡ n / unit }
    ensures remainder_by_the_unit { result.1 ≡ n % unit }
{
    let mut times = 0;
    let mut left = n;
    while left >= unit {
        left -= unit;
        times += 1;
    }
    (times, left)
}

/// The three bytes of a number up to 999, right-justified.
pub fn write_column(n: u16) -> Option<[u8; 3]>
    ensures writes_the_column { result ≡ then_some (has_room n) (column n) }
    ensures reads_back { MatchOption result (999 < n) (λ bytes. number_at bytes 0 ≡ Some n) }
{
    if n > 999 {
        return None;
    }
    let (hundreds, rest) = take_off(n, 100);
    let (tens, ones) = take_off(rest, 10);
    let first = if n < 100 { b' ' } else { b'0' + hundreds };
    let second = if n < 10 { b' ' } else { b'0' + tens };
    Some([first, second, b'0' + ones as u8])
}

// The columns of the numbers, with a blank behind each; none where a column has no room for its number. By index: of what is written through an adapter of `iter_mut` a proof knows nothing.
pub(crate) fn write_columns<const LEN: usize>(numbers: &[u16]) -> Option<[u8; LEN]>
    requires four_bytes_each { LEN ≡ 4 * length numbers.now }
    ensures writes_the_columns { result ≡ written numbers.now }
{
    let mut bytes = [0; LEN];
    let cells = &mut bytes[..];
    for (i, n) in numbers.iter().enumerate() {
        let [a, b, c] = write_column(*n)?;
        cells[4 * i..4 * i + 4].copy_from_slice(&[a, b, c, b' ']);
    }
    Some(bytes)
}
