// A line of the list of numerals: a text, the refusal's number or 0, and the bits or `-`.
use crate::line;
use boost::numeral;

fn answers(text: &[u8], refusal: usize, bits: &[u8]) -> bool {
    match numeral::numeral(text) {
        Err(e) => {
            if numbers::wide(u8::from(e)) != refusal {
                return false;
            }
            check::same(bits, b"-")
        }
        Ok(b) => {
            if refusal != 0 {
                return false;
            }
            let mut four = [0u8; 4];
            numbers::put_big4(&mut four, 0, b);
            line::is_hex(&four, bits)
        }
    }
}

pub fn agrees(line: &[u8]) -> bool {
    let a = line::part_end(line, 0, b' ');
    let r = line::behind(line, a);
    let b = line::part_end(line, r, b' ');
    let bits = line::behind(line, b);
    let refusal = line::decimal(&line[r..b]);
    let mut text = [0u8; 64];
    let n = line::decode(&line[0..a], &mut text);
    answers(&text[0..n], refusal, &line[bits..])
}
