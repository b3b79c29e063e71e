// The outline's examples, run. The file stdout holds what must come out, one example a line.
#![tactic(auto)]

mod show;

use show::{checking, evaluating, listing, naming, reading, reading_into, reading_of};

// Refusals by number, each at its place.
fn refusals(rt: &impl Print) {
    reading(rt, "");
    reading(rt, "A B");
    reading(rt, "A)");
    reading(rt, "(A");
    reading(rt, "#2");
    reading(rt, "#");
    reading(rt, "# 0");
    reading(rt, "A&  ");
    reading(rt, "   ");
    reading(rt, "#01");
    reading(rt, "A\tB");
    reading(rt, "A-B");
    reading(rt, "A ABCDEFGHIJKLM");
    reading(rt, "A>>B");
    reading(rt, "!");
    reading(rt, "()");
    reading(rt, "A(B)");
    reading(rt, "A!");
}

// Bytes of no token, which do not print well, at place 1.
fn strange_bytes(rt: &impl Print) {
    reading_of(rt, "A and a byte of 0", &[65, 0]);
    reading_of(rt, "A and a byte of 9", &[65, 9]);
    reading_of(rt, "A and a byte of 10", &[65, 10]);
    reading_of(rt, "A and a byte of 13", &[65, 13]);
    reading_of(rt, "A and a byte of 128", &[65, 128]);
    reading_of(rt, "A and a byte of 255", &[65, 255]);
}

// Codes are never numbers, and flags go by first appearance.
fn codes(rt: &impl Print) {
    reading(rt, "3E5|!300000");
    reading(rt, "3E5 = 3e5 = 300000 = 3E5");
    reading(rt, "_.a|A._");
    reading(rt, "ABCDEFGHIJKL");
    reading(rt, "ABCDEFGHIJKLM");
    reading(rt, "ABCDEFGHIJKL&ABCDEFGHIJKM");
    reading(rt, "A|AB|ABC");
    naming(rt, "3E5|!300000 & 3E5", 1);
    naming(rt, "3E5|!300000 & 3E5", 2);
    naming(rt, "3E5|!300000 & 3E5", 3);
    naming(rt, "3E5|!300000 & 3E5", 0);
    naming(rt, "3E5|!300000 & 3E5", 18446744073709551615);
    naming(rt, "3E5|!300000 &", 1);
    naming(rt, "#1", 1);
}

// Grouping and triplets, with the room that they are written to.
fn rooms(rt: &impl Print) {
    reading_into(rt, "A>B>C", &mut [7; 8]);
    reading_into(rt, "A=B=C", &mut [7; 8]);
    reading_into(rt, "A|B&C", &mut [7; 6]);
    reading_into(rt, "A&B|C", &mut [7; 6]);
    reading_into(rt, "!A", &mut [7; 2]);
    reading_into(rt, "!!A", &mut [7; 0]);
    reading_into(rt, "#0", &mut [7; 2]);
    reading_into(rt, "!#0", &mut [7; 2]);
    reading_into(rt, "!(A&B)", &mut [7; 3]);
    reading_into(rt, "A>B>C", &mut [7; 5]);
    reading_into(rt, "A>B>", &mut [7; 8]);
    reading_into(rt, "(((p>p)>p)>(p>q))>(((p>q)>p)>q)", &mut [7; 24]);
}

// Each ceiling, and one past it.
fn ceilings(rt: &impl Print) {
    reading(rt, "A&B&C&D&E&F&G&H&I&J&K&L&M&N&O&P&Q&R&S&T&U&V&W&X");
    reading(rt, "A&B&C&D&E&F&G&H&I&J&K&L&M&N&O&P&Q&R&S&T&U&V&W&X&Y");
    reading(
        rt,
        "((((((((((((((((((((((((((((((((A))))))))))))))))))))))))))))))))",
    );
    reading(
        rt,
        "(((((((((((((((((((((((((((((((((A)))))))))))))))))))))))))))))))))",
    );
    let mut chain = [62u8; 513];
    for i in 0..257 {
        chain[2 * i] = 65;
    }
    reading_of(rt, "255 connectives", &chain[0..511]);
    reading_of(rt, "256 connectives", &chain[0..513]);
}

fn long_texts(rt: &impl Print) {
    let mut spaces = [32u8; 4097];
    spaces[0] = 65;
    reading_of(rt, "A and 4,095 spaces", &spaces[0..4096]);
    reading_of(rt, "A and 4,096 spaces", &spaces[0..4097]);
    let mut bangs = [33u8; 4096];
    bangs[4095] = 65;
    reading_of(rt, "4,095 ! and A", &bangs[0..4096]);
}

// Truth in a state: the first flag is the highest bit.
fn states(rt: &impl Print) {
    evaluating(rt, "A>B", 0);
    evaluating(rt, "A>B", 1);
    evaluating(rt, "A>B", 2);
    evaluating(rt, "A>B", 3);
    evaluating(rt, "A>B", 4);
    evaluating(rt, "B>A", 1);
    evaluating(rt, "#0", 0);
    evaluating(rt, "#1", 0);
    evaluating(rt, "#1", 1);
    evaluating(rt, "A&", 9);
    evaluating(rt, "3E5|!300000", 1);
    evaluating(rt, "A=B=C", 4);
    evaluating(rt, "A>B>C", 4);
}

fn lists(rt: &impl Print) {
    listing(rt, "A=B", 0, &mut [9; 3]);
    listing(rt, "A&B", 0, &mut [9; 4]);
    listing(rt, "#0", 0, &mut [9; 1]);
    listing(rt, "#1", 0, &mut [9; 1]);
    listing(rt, "A=B", 0, &mut [9; 1]);
    listing(rt, "A=B", 0, &mut [9; 0]);
    listing(rt, "A=B", 2, &mut [9; 2]);
    listing(rt, "A=B", 3, &mut [9; 2]);
    listing(rt, "A=B", 4, &mut [9; 2]);
    listing(rt, "A=B", 18446744073709551615, &mut [9; 2]);
    listing(rt, "A=", 0, &mut [9; 2]);
    listing(rt, "!a&((p>q)=(!q>!p))", 0, &mut [9; 5]);
}

// The lines of covercheck's sample, and depths at and past their ceiling.
fn verdicts(rt: &impl Print) {
    checking(rt, "A|!A", 0);
    checking(rt, "A>B", 0);
    checking(rt, "(p>q)=(!q>!p)", 0);
    checking(rt, "(p>q)=(!q>!p)", 1);
    checking(rt, "3E5|!300000", 0);
    checking(rt, "A&", 0);
    checking(rt, "#0", 0);
    checking(rt, "#1", 0);
    checking(rt, "(((p>p)>p)>(p>q))>(((p>q)>p)>q)", 0);
    checking(rt, "(A&B)|(!A|!B)", 0);
    checking(rt, "!a&((p>q)=(!q>!p))", 0);
    checking(rt, "!a&((p>q)=(!q>!p))", 1);
    checking(rt, "A=B", 0);
    checking(rt, "A=B", 24);
    checking(rt, "A=B", 25);
    checking(rt, "A=", 25);
}

fn main(rt: HostRuntime) {
    refusals(&rt);
    strange_bytes(&rt);
    codes(&rt);
    rooms(&rt);
    ceilings(&rt);
    long_texts(&rt);
    states(&rt);
    lists(&rt);
    verdicts(&rt);
}
