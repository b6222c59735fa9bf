// A line of the lists of parsing: operator, analyzer, field, fields, text, the refusal's number or 0, and the stored form or `-`.
use crate::line;
use parser::parse;

const FIELD_ROOM: usize = 64;

const FIELDS_ROOM: usize = 512;

const TEXT_ROOM: usize = 2048;

const OUT_ROOM: usize = 65536;

// The parser answers so, from columns in hex.
fn answers(
    operator: u8,
    analyzer: u8,
    field: &[u8],
    fields: &[u8],
    text: &[u8],
    refusal: usize,
    stored: &[u8],
) -> bool {
    let mut f = [0u8; FIELD_ROOM];
    let mut e = [0u8; FIELDS_ROOM];
    let mut t = [0u8; TEXT_ROOM];
    let fl = line::decode(field, &mut f);
    let el = line::decode(fields, &mut e);
    let tl = line::decode(text, &mut t);
    let mut out = [0u8; OUT_ROOM];
    let mut room = [0u8; names::PARSE_ROOM];
    match parse::parse(
        operator,
        analyzer,
        &f[0..fl],
        &e[0..el],
        &t[0..tl],
        &mut out,
        &mut room,
    ) {
        Err(e) => numbers::wide(u8::from(e.refusal)) == refusal,
        Ok(n) => {
            if refusal != 0 {
                return false;
            }
            if OUT_ROOM < n {
                return false;
            }
            line::is_hex(&out[0..n], stored)
        }
    }
}

// A number that a byte holds.
fn small(column: &[u8]) -> u8 {
    (line::decimal(column) % 256) as u8
}

// The columns behind the setup: text, refusal, stored form.
fn text_agrees(operator: u8, analyzer: u8, field: &[u8], fields: &[u8], columns: &[u8]) -> bool {
    let a = line::part_end(columns, 0, b' ');
    let b = line::behind(columns, a);
    let c = line::part_end(columns, b, b' ');
    let d = line::behind(columns, c);
    let refusal = line::decimal(&columns[b..c]);
    answers(
        operator,
        analyzer,
        field,
        fields,
        &columns[0..a],
        refusal,
        &columns[d..],
    )
}

// The columns behind operator and analyzer.
fn agrees_for(operator: u8, analyzer: u8, columns: &[u8]) -> bool {
    let a = line::part_end(columns, 0, b' ');
    let b = line::behind(columns, a);
    let c = line::part_end(columns, b, b' ');
    let d = line::behind(columns, c);
    text_agrees(
        operator,
        analyzer,
        &columns[0..a],
        &columns[b..c],
        &columns[d..],
    )
}

pub fn agrees(line: &[u8]) -> bool {
    let a = line::part_end(line, 0, b' ');
    let b = line::behind(line, a);
    let c = line::part_end(line, b, b' ');
    let d = line::behind(line, c);
    agrees_for(small(&line[0..a]), small(&line[b..c]), &line[d..])
}
