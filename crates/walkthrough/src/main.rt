// The move of 01's case B, run through the code: the table and the order of case A's plan, the claim of line 5 moved to
// device 2, and the order again. What each entry answers is written on a line, and each list that it wrote on another.
#![tactic(auto)]

use model::Refusal;

// Room for a line.
const ROOM: usize = 64;

// Writes a line of a word and numbers. Where standard output does not take it, the next is written all the same.
fn write_line(rt: &impl Print, word: &[u8], values: &[u32]) {
    let mut out = [0u8; ROOM];
    let at = fields::put_word(&mut out, 0, word);
    let n = fields::put_values(&mut out, at, values);
    if let Some(line) = out.get(..n) {
        let _ = shell::write_output(rt, line);
    }
}

// Writes what an entry answers: a word with what it counts, or its refusal.
fn write_answer(rt: &impl Print, word: &[u8], answer: Result<u32, Refusal>) {
    match answer {
        Ok(n) => write_line(rt, word, &[n]),
        Err(r) => write_line(rt, b"refused", &refusals::values(r)),
    }
}

// Makes the order.
fn order(rt: &impl Print, plan: &[u32]) {
    let mut order = [0u16; 6];
    write_answer(rt, b"held", verdict::verdict(plan, &mut order));
    write_line(rt, b"order", &order.map(u32::from));
}

// Moves the claim of a line to a device.
fn move_claim(rt: &impl Print, plan: &mut [u32], sets: &mut [u32], line: u32, device: u32) {
    write_answer(rt, b"changed", moving::move_claim(plan, sets, line, device));
    write_line(rt, b"plan", plan);
    write_line(rt, b"sets", sets);
}

// The whole walk.
fn walk(rt: &impl Print) {
    // 1 start 2; 1 take 1; 1 do 7; 2 take 0; 2 take 1; 2 give 1
    let mut plan = [1794u32, 1281, 1031, 2304, 2305, 2561];
    let mut sets = [0u32; 6];
    write_answer(rt, b"lines", claims::table(&plan, &mut sets));
    write_line(rt, b"sets", &sets);
    order(rt, &plan);
    move_claim(rt, &mut plan, &mut sets, 5, 2);
    order(rt, &plan);
}

fn main(rt: HostRuntime) {
    // Where standard output takes nothing, the program ends with status 0 all the same, and says nothing of it.
    walk(&rt);
}
