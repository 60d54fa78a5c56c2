// Code: compiled, written and read as bytes, verified, and listed.
use std::alloc::Global;
use txs_check::check;
use txs_code_decode::decode;
use txs_code_encode::{encode, same_code};
use txs_code_meaning::{Code, Verified};
use txs_compile::compile;
use txs_disasm::write_listing;
use txs_gen::generate;
use txs_reader::read_script;
use txs_resolve::resolve;
use txs_verify::law::form_is_taken;
use txs_verify::load::load_verified;
use txs_verify::verify;

// The byte form of `(future (println 7))`, as it is documented.
const FORM: &[u8] = b"TXS1\
    \x00\x00\x00\x00\x00\x01\x03\x00\x00\x00\x00\x00\x00\x00\x07\x00\x00\x00\x01\
    \x00\x00\x00\x00\x00\x03\
    \x00\x00\x00\x00\x00\x00\x00\x00\x11\x00\x00\x00\x12\
    \x0a\x00\x01\x00\x00\x00\x08\x00\x00\x00\x13\
    \x18\x00\x00\x00\x00\x00\x00\x00\x14";

// Its listing.
const LISTED: &[u8] = b"const 0 7
thread 0 locals 0
  0 const 0 @17..18
  1 print 1 @8..19
  2 halt @0..20
";

/// Whether the listing of code is that of `(future (println 7))`.
pub fn is_listed(alloc: Global, code: &Code) -> bool {
    let mut out = Vec::new(alloc);
    write_listing(alloc, code, &mut out).is_ok() && out.as_slice() == LISTED
}

#[test]
fn reads_what_it_writes(rt: HostRuntime) {
    let Ok(code) = decode(rt.alloc(), FORM) else {
        panic!(rt)
    };
    let Ok(again) = decode(rt.alloc(), FORM) else {
        panic!(rt)
    };
    let Ok(bytes) = encode(rt.alloc(), &code) else {
        panic!(rt)
    };
    assert!(rt; same_code(&code, &again) && bytes.as_slice() == FORM && FORM.len() == 62);
}

// Whether a script is compiled to a program of one thread, and to code of that listing.
fn is_compiled(alloc: Global, script: &[u8]) -> bool {
    let Ok((program, verified)) = compile(alloc, script) else {
        return false;
    };
    let threads = program.threads().len();
    drop(program);
    let is = is_listed(alloc, verified.code());
    drop(verified);
    is && threads == 1
}

// Whether bytes are taken as code of that listing, whose thread has one value at most on its stack.
fn is_loaded(alloc: Global, bytes: &[u8]) -> bool {
    match load_verified(alloc, bytes) {
        Ok(verified) => {
            let (functions, threads) = verified.rooms();
            functions.is_empty() && matches!(threads, [1]) && is_listed(alloc, verified.code())
        }
        Err(_) => false,
    }
}

// Whether a script's program, by the layers of the compiler, has code of that listing.
fn is_generated(alloc: Global, script: &[u8]) -> bool {
    let Ok(forms) = read_script(alloc, script) else {
        return false;
    };
    let Ok(raw) = resolve(alloc, forms.as_slice()) else {
        return false;
    };
    let Ok(program) = check(alloc, raw) else {
        return false;
    };
    match generate(alloc, &program) {
        Ok(verified) => is_listed(alloc, verified.code()),
        Err(_) => false,
    }
}

// Whether bytes are those of code that is well typed with one value at most on its one stack, and that has that listing once it is sealed.
fn is_verified(alloc: Global, bytes: &[u8]) -> bool {
    let Ok(code) = decode(alloc, bytes) else {
        return false;
    };
    form_is_taken(&code);
    let Ok((code, rooms)) = verify(alloc, code) else {
        return false;
    };
    let one = rooms.functions.is_empty() && matches!(rooms.threads.as_slice(), [1]);
    match Verified::seal(alloc, code, rooms.functions, rooms.threads) {
        Ok(verified) => one && is_listed(alloc, verified.code()),
        Err(_) => false,
    }
}

#[test]
fn generates_and_verifies(rt: HostRuntime) {
    assert!(rt; is_generated(rt.alloc(), b"(future (println 7))"));
    assert!(rt; is_verified(rt.alloc(), FORM));
}

#[test]
fn compiles_loads_and_lists(rt: HostRuntime) {
    assert!(rt; is_compiled(rt.alloc(), b"(future (println 7))"));
    assert!(rt; is_loaded(rt.alloc(), FORM));
}
