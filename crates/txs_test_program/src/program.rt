// The program by its words, on an input, for tests whose scripts or streams are made by code. Others stand in `tests/rows`.
use std::alloc::{AllocError, Global};
use txs_cli::play;

/// The words between spaces.
fn args_of(alloc: Global, words: &str) -> Result<Vec<String>, AllocError> {
    let mut args = Vec::new(alloc);
    for word in words.split_whitespace() {
        args.push(String::from_str(alloc, word)?)?;
    }
    Ok(args)
}

/// Appends what the program writes for these words and this input to its standard output, and to its standard error: its status.
pub fn write(
    alloc: Global,
    words: &str,
    input: &[u8],
    output: &mut Vec<u8>,
    errors: &mut Vec<u8>,
) -> u8 {
    let Ok(args) = args_of(alloc, words) else {
        return 4;
    };
    let mut reader = input;
    play(alloc, args.as_slice(), &mut reader, output, errors)
}

/// Whether it writes this to its standard output, this to its standard error, and ends with this status.
pub fn says(
    alloc: Global,
    words: &str,
    input: &[u8],
    output: &[u8],
    errors: &[u8],
    status: u8,
) -> bool {
    let mut out = Vec::new(alloc);
    let mut err = Vec::new(alloc);
    let ended = write(alloc, words, input, &mut out, &mut err);
    ended == status && out.as_slice() == output && err.as_slice() == errors
}

/// Appends a number below 10,000.
pub fn write_number(out: &mut Vec<u8>, number: usize) -> Result<(), AllocError> {
    let digits = b"0123456789";
    if number >= 1_000 {
        out.push(digits[number / 1_000 % 10])?;
    }
    if number >= 100 {
        out.push(digits[number / 100 % 10])?;
    }
    if number >= 10 {
        out.push(digits[number / 10 % 10])?;
    }
    out.push(digits[number % 10])?;
    Ok(())
}
