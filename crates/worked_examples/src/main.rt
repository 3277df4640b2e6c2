// The worked examples that a program runs: a line each, with what the library answers. The file stdout has what they should be.
#![tactic(auto)]

use bits::{Order, Refusal};
use reader::Cursor;

fn main(rt: HostRuntime) {
    told(
        &rt,
        "sign_extend of width 65 is refused with ",
        sign::sign_extend(0, 65),
    );
    bytes_after_a_bit(&rt);
    layouts(&rt);
}

// 17 bytes, one bit read: 16 bytes can be had, 17 are refused with 9. Width 65 is refused with 3.
fn bytes_after_a_bit(rt: &impl Print) {
    let src = [0x5au8; 17];
    let Ok(start) = Cursor::new(&src) else {
        return;
    };
    told(
        rt,
        "a read of width 65 is refused with ",
        start.read_bits(Order::Big, &src, 65),
    );
    let Ok(bit) = start.read_bit(Order::Big, &src) else {
        return;
    };
    let next = bit.cursor;
    told(
        rt,
        "16 bytes after one bit of 17 bytes: ",
        next.read_bytes(Order::Big, &src, &mut [0u8; 16]),
    );
    told(
        rt,
        "17 bytes after one bit of 17 bytes: ",
        next.read_bytes(Order::Big, &src, &mut [0u8; 17]),
    );
}

// 64 fields compile, 65 are refused with 5; so is a width of 65 in a layout.
fn layouts(rt: &impl Print) {
    let mut out = [0u8; 256];
    told(
        rt,
        "a layout of 64 fields: ",
        layout::compile(&[0u8; 128], &mut out),
    );
    told(
        rt,
        "a layout of 65 fields: ",
        layout::compile(&[0u8; 130], &mut out),
    );
    told(
        rt,
        "a layout with a width of 65: ",
        layout::compile(&[0u8, 65u8], &mut out),
    );
}

// Writes a text, the number of an answer's refusal or 0, and a newline.
fn told<T: Copy>(rt: &impl Print, text: &str, answer: Result<T, Refusal>) {
    let number = match answer {
        Ok(_) => 0,
        Err(refusal) => refusal.number(),
    };
    let _told = println!(rt; "{text}{number}");
}
