// Byte forms in which one byte is changed: each is refused, or is the form of other code.
use crate::program::write;
use std::alloc::Global;
use txs_code_encode::bytes_of;
use txs_verify::load::load;
use txs_verify::load_error::LoadError;

/// Whether bytes are refused, or are the form of the code that they are taken as.
fn are_refused_or_form(alloc: Global, bytes: &[u8]) -> bool {
    match load(alloc, bytes) {
        Ok((code, rooms)) => {
            drop(rooms);
            let form = bytes_of(alloc, &code);
            drop(code);
            matches!(form, Ok(Some(form)) if form.as_slice() == bytes)
        }
        Err(error) => !matches!(error, LoadError::Memory),
    }
}

/// Whether each byte at this index makes such bytes. The byte that was there is put back.
fn may_be_any(alloc: Global, form: &mut [u8], at: usize) -> bool {
    let kept = form.get(at).copied().unwrap_or(0);
    for byte in 0..=255 {
        if let Some(here) = form.get_mut(at) {
            *here = byte;
        }
        if !are_refused_or_form(alloc, form) {
            return false;
        }
    }
    if let Some(here) = form.get_mut(at) {
        *here = kept;
    }
    true
}

/// The first index at which some byte makes other bytes, or else their number.
fn first_other(alloc: Global, form: &mut [u8]) -> usize {
    for at in 0..form.len() {
        if !may_be_any(alloc, form, at) {
            return at;
        }
    }
    form.len()
}

/// Whether all changes of one byte of the form of a script's code are refused, or are forms.
fn has_sound_neighbours(alloc: Global, script: &str) -> bool {
    let mut form = Vec::new(alloc);
    let mut errors = Vec::new(alloc);
    let status = write(
        alloc,
        "build --out code",
        script.as_bytes(),
        &mut form,
        &mut errors,
    );
    drop(errors);
    let count = form.len();
    status == 0 && count > 0 && first_other(alloc, form.as_mut_slice()) == count
}

/// The script of the 62 bytes of docs/FORMATS.md, and four whose code is longer: of branches and loops, of transactions, of atoms and agents, and of validators.
const SCRIPTS: [&str; 5] = [
    "(future (println 7))",
    "(future (println (loop [i 3 s 0] (if (> i 0) (recur (dec i) (+ s i)) [s \"text\" :key nil]))))",
    "(def r (ref [1 2])) (def c (ref -7))
    (future (dosync (ref-set r (conj @r 3)) (commute c + 2) (alter r assoc 0 (ensure c))))",
    "(def a (atom :k)) (def g (agent 0 :error-mode :continue)) (defn f [s x] (quot s x))
    (future (swap! a = 1) (reset! a g) (dosync (send g f 0)) (println @a))",
    "(defn ok [x] (>= x 0)) (def r (ref 1 :validator ok)) (def a (atom 2)) (def g (agent 3 :validator pos?))
    (future (dosync (alter r dec)))",
];

#[test]
fn a_changed_byte_is_refused_or_is_other_code(rt: HostRuntime) {
    for script in &SCRIPTS {
        assert!(rt; has_sound_neighbours(rt.alloc(), script), "{script}");
    }
}
