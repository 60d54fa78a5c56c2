// The compiled run of a script prints and ends as the meaning of its thread says.
use crate::program::{says, write_number};
use std::alloc::{AllocError, Global};
use txs_compile::compile;
use txs_tree_eval::{ThreadMeaning, eval_thread};
use txs_value_data::Fault;
use txs_world_protocol::Outcome;

// Appends what the run of a thread tells that ended so.
fn write_fault(line: &mut Vec<u8>, fault: &Fault) -> Result<(), AllocError> {
    line.extend_from_slice(b"thread 0 failed: ")?;
    line.extend_from_slice(fault.kind.name().as_bytes())?;
    line.extend_from_slice(b" at ")?;
    write_number(line, fault.span.from as usize)?;
    line.extend_from_slice(b"..")?;
    write_number(line, fault.span.to as usize)?;
    line.extend_from_slice(b"\n")
}

// Whether the run of a script tells what the meaning of its thread says.
fn is_told(alloc: Global, script: &[u8], meaning: &ThreadMeaning) -> bool {
    let mut line = Vec::new(alloc);
    let status = match &meaning.outcome {
        Some(Outcome::Done) => 0,
        Some(Outcome::Failed(fault)) if write_fault(&mut line, fault).is_ok() => 3,
        _ => return false,
    };
    let printed = meaning.printed.as_slice();
    says(alloc, "schedule", script, printed, line.as_slice(), status)
}

// Whether the run of a script tells what the meaning of its thread says, or nothing where it has no thread.
fn agrees(alloc: Global, script: &[u8]) -> bool {
    let Ok((program, code)) = compile(alloc, script) else {
        return false;
    };
    drop(code);
    let agrees = if program.threads().is_empty() {
        says(alloc, "schedule", script, b"", b"", 0)
    } else {
        match eval_thread(alloc, &program, 0, &[], 10_000) {
            Ok(meaning) => {
                let told = is_told(alloc, script, &meaning);
                drop(meaning);
                told
            }
            Err(_) => false,
        }
    };
    drop(program);
    agrees
}

// Scripts, one a line; the second is empty.
const SCRIPTS: &str = "\
; a comment

 , 
(future)
(future 1)
(future 1 2)
(future (println))
(future (println 0))
(future (println -0 +0))
(future (println +7 -7))
(future (println 9223372036854775807 -9223372036854775808))
(future (println (+ 1 2)))
(future (println (+ 1 2 3)))
(future (println (+ 1 2 3 4 5 6 7 8 9 10)))
(future (println (+ (+ 1 2) (+ 3 4))))
(future (println (+ 1 (+ 2 (+ 3 (+ 4 5))))))
(future (println (+ -1 1)))
(future (println (+ 9223372036854775807 -1)))
(future (println (+ 9223372036854775807 1)))
(future (println (+ -9223372036854775808 -1)))
(future (println 1) (println (+ 9223372036854775807 1)) (println 2))
(future (+ 9223372036854775807 1 (println 3)))
(future (+ 1 9223372036854775807 -1))
(future (println (+ 1 9223372036854775807 -1)))
(future (println (+ (println 1) 1)))
(future (println (do)))
(future (println (do 1)))
(future (println (do 1 2)))
(future (do (println 1) (do (println 2) (println 3))))
(future (println (let [])))
(future (println (let [] 4)))
(future (println (let [a 1] a)))
(future (println (let [a 1 b (+ a 1)] b)))
(future (println (let [a 1 a 2] a)))
(future (println (let [a 1 a (+ a 1) a (+ a a)] a)))
(future (let [a 1] (println (let [a 2] a) a)))
(future (let [a 1] (let [b 2] (let [c 3] (println a b c (+ a b c))))))
(future (println (let [a (let [b 5] b)] (+ a a))))
(future (println (+ (let [a 1] a) (let [a 2] a))))
(future (println (let [+ 1] +)))
(future (let [a (println 1) b (println 2)] (println a b)))
(future (let [x' 1 y? 2 z! 3 *w* 4 <= 5] (println x' y? z! *w* <=)))
(future (println (println) (println (println 1))))
(future (println 1 ; one\r 2) ; two\r)
(future (println nil true false))
(future (println (if nil 1 2) (if false 1 2) (if true 1 2) (if 0 1 2)))
(future (println (if false 1)))
(future (if true (println 1) (println 2)) (if nil (println 3)) (println 4))
(future (println (if (if true false true) 1 (if 1 2 3))))
(future (println (- 5) (- 5 3) (- 10 1 2 3) (* 2 3) (* 2 3 4 5)))
(future (println (- -9223372036854775808)))
(future (println (* 3037000500 3037000500 0)))
(future (println (* 0 3037000500 3037000500)))
(future (println (- 1 nil (println 2))))
(future (println (inc 1) (dec 1) (quot 7 -2) (rem 7 -2) (mod 7 -2)))
(future (println (mod -7 2) (rem -7 2) (quot -7 2)))
(future (println (quot 1 0)))
(future (println (rem 1 0)))
(future (println (mod nil 0)))
(future (println (quot -9223372036854775808 -1)))
(future (println (= 1 1) (= nil false) (not= 1 2) (= true true)))
(future (println (< 1 2) (> 1 2) (<= 2 2) (>= 1 2) (max 1 2) (min 1 2)))
(future (println (not nil) (not 0) (nil? nil) (nil? false)))
(future (println (zero? 0) (pos? 0) (neg? -1)))
(future (println (zero? true)))
(future (println (count nil)))
(future (println (count 1)))
(future (println (conj nil 1)))
(future (println (nth 1 0)))
(future (println (assoc nil 0 1) (peek nil) (pop nil)))
(future (println (loop [] 1)))
(future (println (loop [a 1 b 2] (if (= a 2) b (recur b a)))))
(future (println (loop [i 0 s 0] (if (< i 10) (recur (inc i) (- s i)) s))))
(future (loop [i 0] (if (< i 3) (do (println i) (recur (+ i 1))))))
(future (println (loop [i 0] (let [j (inc i)] (if (< j 5) (recur j) (* i j))))))
(future (loop [i 0] (if (< i 3) (do (loop [j 0] (if (< j i) (do (println i j) (recur (inc j))))) (recur (inc i))))))
(future (println (loop [i 0] (if (< i 9) (recur (loop [j i] (if (< j 5) (recur (+ j 2)) (inc j)))) i))))
(future (loop [i 3] (println (quot 6 i)) (recur (dec i))))
(future (println (let [if' 1 nil' 2] (+ if' nil'))))
(defn twice [x] (+ x x)) (future (println (twice 4)))
(defn f [a b] (- a b)) (future (println (f 10 3) (f 3 10)))
(defn sum [n s] (if (= n 0) s (recur (dec n) (+ s n)))) (future (println (sum 100 0)))
(defn f [x] (inc x)) (defn g [x] (f (f x))) (defn h [x] (g (g x))) (future (println (h 0)))
(defn show [x] (println x) x) (future (println (+ (show 1) (show 2))))
(defn f [x] (quot 1 x)) (future (println (f 1)) (println (f 0)) (println 2))
(defn f [] (loop [i 0] (if (< i 5) (recur (inc i)) i))) (future (println (f) (f)))
(defn f [x y] (let [x y y x] [x y])) (future (println (f 1 2)))
(defn f [x] (if (< x 3) (do (println x) (recur (inc x))) :done)) (future (println (f 0)))
(defn f [v i] (nth v i)) (future (println (f [1 2 3] 1)) (println (f [1] 1)))
(future (println (and) (and 1) (and 1 nil 2) (and 1 2 3) (or) (or nil) (or nil false 3) (or 1 2)))
(future (println (cond) (cond nil 1) (cond nil 1 2 3) (cond 1 2 3 4)))
(future (println (when 1 2) (when nil 2) (when-not 1 2) (when-not nil 2) (if-not 1 2 3) (if-not nil 2)))
(def k [1 \"a\" :b nil]) (future (println k (count k) (conj k k)))
(future (loop [i 0] (when (< i 3) (println i) (recur (inc i)))))
(future (println (loop [i 0 v []] (cond (= i 3) v :else (recur (inc i) (conj v i))))))";

#[test]
fn runs_agree_with_meanings(rt: HostRuntime) {
    let mut count = 0u32;
    for script in SCRIPTS.lines() {
        assert!(rt; agrees(rt.alloc(), script.as_bytes()), "{script}");
        count = count.wrapping_add(1);
    }
    assert!(rt; count == 95);
}
