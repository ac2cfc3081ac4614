// Reads lines and numbers. A number is closed by a blank or the end of its line; `300*7` is 300 numbers 7.
ghost use Rattle.std.specs.Prelude.{◌<◌, ◌≤◌, length};

// How far the numbers of a line are read: so many are put, and the next is to come so many times.
#[derive(Clone, Copy)]
struct Read {
    put: usize,
    times: usize,
    value: u32,
}

// Where the line from `from` on ends, its newline taken in.
pub fn line_end(text: &[u8], from: usize) -> usize
    requires { from ≤ length text.now }
    ensures lower_bound { (from ≤ result) × (result ≤ length text.now) }
    ensures lower_bound_2 { from < length text.now → from < result }
{
    match text[from..].iter().position(|byte| *byte == b'\n') {
        Some(i) => from + i + 1,
        None => text.len(),
    }
}

// A digit more, as long as the number stays below 1,000,000,000.
fn with_digit(value: u32, digit: u8) -> u32
    requires { 48 ≤ digit }
{
    if 100000000 <= value {
        return value;
    }
    value * 10 + (digit - b'0') as u32
}

// Puts a number so many times, if there is room for that, and answers how many numbers there are then.
fn put_times(numbers: &mut [u32], put: usize, times: usize, value: u32) -> usize
    requires { put ≤ length numbers.old }
    ensures { result ≤ length numbers.new }
{
    if numbers.len() - put < times {
        return put;
    }
    let end = put + times;
    numbers[put..end].fill(value);
    end
}

fn read_byte(read: Read, byte: u8, numbers: &mut [u32]) -> Read
    requires { read.put ≤ length numbers.old }
    ensures { result.put ≤ length numbers.new }
{
    match byte {
        b'0'..=b'9' => Read {
            put: read.put,
            times: read.times,
            value: with_digit(read.value, byte),
        },
        b'*' => Read {
            put: read.put,
            times: read.value as usize,
            value: 0,
        },
        _ => Read {
            put: put_times(numbers, read.put, read.times, read.value),
            times: 1,
            value: 0,
        },
    }
}

// Puts the numbers of a line at the front of `numbers`, and answers how many they are.
pub fn read_numbers(line: &[u8], numbers: &mut [u32]) -> usize
    ensures { result ≤ length numbers.new }
{
    let mut read = Read {
        put: 0,
        times: 1,
        value: 0,
    };
    for byte in line {
        read = read_byte(read, *byte, numbers);
    }
    read.put
}
