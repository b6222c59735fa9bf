// What one round makes of a query whose inside had its own round, and stands a few bytes behind the front of the room.
// No function here calls itself: each lays at the front what a nested call laid further up.
ghost use Rattle.std.specs.Prelude.{List, ◌++◌, cond, ℕ, ◌+◌, ◌-◌, ◌<◌, ◌≤◌, length, take, drop};
ghost use Rattle.rules.specs.Numbers.{term_tag, text_tag};
ghost use Rattle.rules.specs.Bytes.{part};
ghost use Rattle.rules.specs.Query.{Word, Kind, Query, phrase, boolean, match_none, Clauses, none, clause};
ghost use Rattle.rules.specs.Stored.{encode};
ghost use Rattle.rules.specs.Checked.{Is, Are};
ghost use Rattle.rules.specs.Floats.{widened, is_one};
ghost use Rattle.rules.specs.Rewriting.{boosted, scored, phrased, lone, of_live};
ghost use Rattle.rules.specs.Eating.{merged_clauses};
ghost use Rattle.numbers.specs.Laid.{Put};
ghost use Rattle.places.specs.Within.{within, Stands};
ghost use Rattle.round.specs.Over.{Inner, Phrase, Live, Lone};

use crate::clauses::{is_single, only_must_not, should_count};
use floats::sums::{is_one_bits, product};
use merging::merge::merge_clauses;
use names::{
    BOOLEAN_FRONT, BOOLEAN_TAG, BOOST_BYTES, BOOST_FRONT, BOOST_TAG, CONSTANT_SCORE_TAG,
    FILTER_TAG, HEADER, MATCH_NONE_TAG, MINIMUM_BYTES, MUST_NOT_TAG, POSITION_BYTES, TERM_TAG,
    TEXT_TAG,
};
use numbers::{big4, put_big4};
use parts::write::{put_header, put_minimum};
use places::ends::end_of;
use places::place::shift;

// Where the bits of a boost stand that was laid under a boost, and what a boost under a constant score holds.
const INNER_BITS: usize = BOOST_FRONT + HEADER;

// What stands before a word's text, before the query of a lone clause, and before one that is scored 0; a minimum with its header.
const WORD_FRONT: usize = HEADER + POSITION_BYTES;

const LONE_FRONT: usize = BOOLEAN_FRONT + HEADER;

const SCORED_FRONT: usize = BOOST_FRONT + HEADER;

const MINIMUM: usize = HEADER + MINIMUM_BYTES;

pub fn put_none(room: &mut [u8]) -> usize
    requires { 3 ≤ length room.old }
    ensures { Stands 0 room.old result (encode match_none) room.new }
{
    put_header(room, 0, MATCH_NONE_TAG, 0)
}

// Boost b of the query of n bytes at 7. A nested boost is one product.
fn boost_over(room: &mut [u8], n: usize, b: u32) -> usize
    requires { Inner 7 n room.old }
    ensures { (q : Query) → Is (take n (drop 7 room.old)) q → Stands 0 room.old result (encode (boosted b q)) room.new }
{
    match room[BOOST_FRONT] {
        MATCH_NONE_TAG => put_none(room),
        BOOST_TAG => {
            let c = big4(&room[INNER_BITS..]);
            shift(room, 0, BOOST_FRONT, n);
            put_big4(room, HEADER, product(c, b));
            n
        }
        _ => {
            let p = put_header(room, 0, BOOST_TAG, BOOST_BYTES + n);
            put_big4(room, p, b);
            BOOST_FRONT + n
        }
    }
}

// What a boost b comes to, over the query of n bytes at 7: a boost of 1 goes.
pub fn finish_boost(room: &mut [u8], n: usize, b: u32) -> usize
    requires { Inner 7 n room.old }
    ensures { (q : Query) → Is (take n (drop 7 room.old)) q → Stands 0 room.old result (encode (cond (is_one (widened b)) q (boosted b q))) room.new }
{
    if is_one_bits(b) {
        shift(room, 0, BOOST_FRONT, n);
        return n;
    }
    boost_over(room, n, b)
}

// ConstantScore of the query of n bytes at 3.
pub fn score_over(room: &mut [u8], n: usize) -> usize
    requires { Inner 3 n room.old }
    ensures { (q : Query) → Is (take n (drop 3 room.old)) q → Stands 0 room.old result (encode (scored q)) room.new }
{
    match room[HEADER] {
        MATCH_NONE_TAG => put_none(room),
        CONSTANT_SCORE_TAG => {
            shift(room, 0, HEADER, n);
            n
        }
        BOOST_TAG => {
            shift(room, HEADER, INNER_BITS, n - BOOST_FRONT);
            put_header(room, 0, CONSTANT_SCORE_TAG, n - BOOST_FRONT);
            n - BOOST_BYTES
        }
        _ => {
            put_header(room, 0, CONSTANT_SCORE_TAG, n);
            HEADER + n
        }
    }
}

// The term with the field part from `field` up to `word`, and the text of the word that stands from there up to the end.
fn term_over(room: &mut [u8], field: usize, word: usize) -> usize
    requires { (3 ≤ field) × (field ≤ word) × (word + 7 ≤ length room.old) × (3 + (word - field) + (length room.old - (word + 7)) < 65536) }
    ensures { Put room.old 0 (part term_tag (within field word room.old ++ part text_tag (within (word + 7) (length room.old) room.old))) result room.new }
{
    let f = word - field;
    let from = word + WORD_FRONT;
    let t = room.len() - from;
    let p = put_header(room, 0, TERM_TAG, f + HEADER + t);
    let q = shift(room, p, field, f);
    let r = put_header(room, q, TEXT_TAG, t);
    shift(room, r, from, t)
}

// The phrase from `at` on: one of no word is MatchNone, and one of one word a term.
pub fn phrase_over(room: &mut [u8], at: usize) -> usize
    requires { Phrase at room.old }
    ensures { (f : List ℕ) (ws : List Word) → Is (drop at room.old) (phrase f ws) → Stands 0 room.old result (encode (phrased f ws)) room.new }
{
    let end = room.len();
    let words = end_of(room, at + HEADER);
    if words == end {
        return put_none(room);
    }
    if end_of(room, words) == end {
        return term_over(room, at + HEADER, words);
    }
    let n = end - at;
    shift(room, 0, at, n);
    n
}

// One clause, from 8 up to the end, with a minimum of at most 1.
fn put_lone(room: &mut [u8], end: usize) -> usize
    requires { Lone end room.old }
    ensures { (k : Kind) (q : Query) → Are (within 8 end room.old) (clause k q none) → Stands 0 room.old result (encode (lone k q)) room.new }
{
    let n = end - LONE_FRONT;
    match room[BOOLEAN_FRONT] {
        MUST_NOT_TAG => put_none(room),
        FILTER_TAG => {
            shift(room, SCORED_FRONT, LONE_FRONT, n);
            put_header(room, BOOST_FRONT, CONSTANT_SCORE_TAG, n);
            put_big4(room, HEADER, 0);
            put_header(room, 0, BOOST_TAG, BOOST_FRONT + n);
            SCORED_FRONT + n
        }
        _ => {
            shift(room, 0, LONE_FRONT, n);
            n
        }
    }
}

fn put_merged_boolean(room: &mut [u8], end: usize, least: usize, strict: bool) -> usize
    requires { Live end least room.old }
    ensures { (cs : Clauses) → Are (within 8 end room.old) cs → Stands 0 room.old result (encode (boolean least (merged_clauses strict least cs))) room.new }
{
    let n = merge_clauses(
        &mut room[BOOLEAN_FRONT..],
        end - BOOLEAN_FRONT,
        least,
        strict,
    );
    put_minimum(room, HEADER, least);
    put_header(room, 0, BOOLEAN_TAG, MINIMUM + n);
    BOOLEAN_FRONT + n
}

// A Boolean, of clauses after their own round, from 8 up to the end.
pub fn rewrite_boolean(room: &mut [u8], end: usize, least: usize, strict: bool) -> usize
    requires { Live end least room.old }
    ensures { (cs : Clauses) → Are (within 8 end room.old) cs → Stands 0 room.old result (encode (of_live strict least cs)) room.new }
{
    let clauses = &room[BOOLEAN_FRONT..end];
    if only_must_not(clauses) || should_count(clauses) < least {
        return put_none(room);
    }
    if least <= 1 && is_single(clauses) {
        return put_lone(room, end);
    }
    put_merged_boolean(room, end, least, strict)
}
