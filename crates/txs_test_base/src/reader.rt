// What no clause says: the worked rows, and that calls succeed with ample memory.
use std::alloc::Global;
use txs_reader::{Bracket, Form, ReadError, ReadErrorKind, read_script};
use txs_value_data::Span;

/// The number of the refusal and its span; all 0 for a script that is read.
fn stop(alloc: Global, script: &[u8]) -> (u8, u32, u32) {
    match read_script(alloc, script) {
        Ok(_) => (0, 0, 0),
        Err(ReadError { kind, at }) => (kind.number(), at.from, at.to),
    }
}

/// Scripts that a file of rows can't hold; the others stand in `tests/rows/reading.rows`.
const BYTES: [(&[u8], (u8, u32, u32)); 10] = [
    (b"a\xff", (1, 1, 2)),
    (b"\"\xc3\xa9\" \xe2\x82", (1, 5, 6)),
    (b"(a) \x80", (1, 4, 5)),
    (b"a \xc0\xaf", (1, 2, 3)),
    (b"\xed\xa0\x80", (1, 0, 1)),
    (b"(a\x00b)", (4, 1, 4)),
    (b"\"\\", (6, 1, 2)),
    (b"\"\\u12", (6, 1, 2)),
    (b"-9223372036854775808", (0, 0, 0)),
    (b"\"a\rb\" +1 -0 a.b x? @ ; c\n x", (0, 0, 0)),
];

#[test]
fn bytes_are_refused(rt: HostRuntime) {
    for (script, answer) in &BYTES {
        assert!(rt; stop(rt.alloc(), script) == *answer);
    }
    assert!(rt; ReadErrorKind::Memory.name() == "Memory");
}

/// What stands before, so many times what, and what stands behind; and the refusal.
type Made = (
    &'static [u8],
    &'static [u8],
    u32,
    &'static [u8],
    (u8, u32, u32),
);

/// Brackets and length; lists and texts.
const MADE: [Made; 14] = [
    (b"", b"(", 1_048_577, b"", (8, 1_048_576, 1_048_577)),
    (b"", b"(", 1_048_576, b"", (7, 100, 101)),
    (b"", b"(", 101, b"", (7, 100, 101)),
    (b"", b"(", 100, b"", (2, 99, 100)),
    (b"", b"@", 101, b"a", (7, 100, 101)),
    (b"", b"@", 100, b"a", (0, 0, 0)),
    (b"", b"a", 255, b"", (0, 0, 0)),
    (b"", b"a", 256, b"", (8, 0, 256)),
    (b"[", b"a ", 65_535, b"", (2, 0, 1)),
    (b"[", b"a ", 65_535, b"]", (0, 0, 0)),
    (b"[", b"a ", 65_536, b"", (8, 131_071, 131_072)),
    (b"[", b"a ", 65_535, b")", (3, 131_071, 131_072)),
    (b"\"", b"a", 65_535, b"\"", (0, 0, 0)),
    (b"\"", b"a", 65_536, b"\"", (8, 0, 65_538)),
];

#[test]
fn sizes_are_limited(rt: HostRuntime) {
    for (front, part, count, back, answer) in &MADE {
        let mut script = Vec::new(rt.alloc());
        let mut made = script.extend_from_slice(front).is_ok();
        for _ in 0..*count {
            made = script.extend_from_slice(part).is_ok() && made;
        }
        made = script.extend_from_slice(back).is_ok() && made;
        assert!(rt;
            made && stop(rt.alloc(), script.as_slice()) == *answer,
            "{count}"
        );
    }
}

const FRONTS: [&[u8]; 20] = [
    b"(future (println (+ 1 2)))",
    b"(future (println -9223372036854775808))",
    b"(future (println (inc 9223372036854775807)))",
    b"(future (println (if false (quot 1 0) 5)))",
    b"(future (loop [a 1] (+ 1 (recur a))))",
    b"(def c (ref 0)) (future (dosync (commute c inc)))",
    b"(def r (ref 1)) (future (dosync (alter r + 10) (commute r * 2)))",
    b"(future (dosync (when (= 2 (+ @a @b)) (alter a dec))))",
    b"(def r (ref 0)) (future (dosync @r) (println (dosync @r)))",
    b"(def g (agent 10)) (future (send g quot 0) (send g inc))",
    b"(def g (agent 10 :error-mode :continue))",
    b"(future (loop [] (recur)))",
    b"(def a (atom 0)) (defn f [x] @x) (future (dosync (f a)))",
    b"(future [1 2)",
    b"\"abc",
    b"(future (println [1 \"a\" :b nil] \"x\"))",
    b"(def a (atom 1)) (future (println (swap! a + 1 2)) (println @a))",
    b"(def a (atom 5)) (future (println (reset! a 7) a))",
    b"\"\\u0041\\n\xc3\xa9\\q\"",
    b"@ @ ; two\n x, :k true",
];

/// Each front of each of these scripts gives an answer other than want of memory.
#[test]
fn fronts(rt: HostRuntime) {
    for script in &FRONTS {
        for n in 0..script.len() {
            assert!(rt; stop(rt.alloc(), &script[..n]).0 != 10, "{n}");
        }
    }
}

// Whether these are the parts of `(a? -7 ; x [+1])`.
fn are_of_list(parts: &[Form]) -> bool {
    matches!(
        parts,
        [
            Form::Symbol(_, _),
            Form::Number(-7, Span { from: 4, to: 6 }),
            Form::Group(Bracket::Square, _, _)
        ]
    )
}

// Whether these are the parts of `@@c`.
fn are_of_deref(parts: &[Form]) -> bool {
    matches!(
        parts,
        [
            Form::Symbol(_, Span { from: 30, to: 31 }),
            Form::Group(Bracket::Round, _, Span { from: 31, to: 33 })
        ]
    )
}

// Whether these are the forms of `LISTS`.
fn are_lists(forms: &[Form]) -> bool {
    let [list, key, nil, truth, deref, text] = forms else {
        return false;
    };
    matches!(list, Form::Group(Bracket::Round, parts, Span { from: 0, to: 16 }) if are_of_list(parts))
        && matches!(key, Form::Keyword(_, Span { from: 17, to: 19 }))
        && matches!(nil, Form::Nil(_))
        && matches!(truth, Form::Truth(true, _))
        && matches!(deref, Form::Group(Bracket::Round, parts, Span { from: 30, to: 33 }) if are_of_deref(parts))
        && matches!(text, Form::Text(_, Span { from: 34, to: 44 }))
}

const LISTS: &[u8] = b"(a? -7 ; x\n[+1]) :b nil, true @@c \"\\u0041\\t\"";

// Whether these are the forms of `WORDS`.
fn are_words(forms: &[Form]) -> bool {
    let [one, zero, text, key, symbol, truth, deref] = forms else {
        return false;
    };
    matches!(one, Form::Number(1, Span { from: 0, to: 2 }))
        && matches!(zero, Form::Number(0, _))
        && matches!(text, Form::Text(text, _) if text.as_str() == "a\rbA\"\\")
        && matches!(key, Form::Keyword(name, _) if name.as_bytes() == b"k".as_slice())
        && matches!(symbol, Form::Symbol(name, _) if name.as_bytes() == b"a.b".as_slice())
        && matches!(truth, Form::Truth(true, _))
        && matches!(deref, Form::Group(Bracket::Round, parts, _) if parts.len() == 2)
}

const WORDS: &[u8] = b"+1 -0 \"a\rb\\u0041\\\"\\\\\" :k a.b true @ ; comment\n x";

#[test]
fn reads_forms(rt: HostRuntime) {
    let Ok(lists) = read_script(rt.alloc(), LISTS) else {
        panic!(rt)
    };
    let Ok(words) = read_script(rt.alloc(), WORDS) else {
        panic!(rt)
    };
    assert!(rt; are_lists(lists.as_slice()) && are_words(words.as_slice()));
}
