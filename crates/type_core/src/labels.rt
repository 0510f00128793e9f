// The labels of records, and their order.
ghost use Rattle.std.specs.Prelude.{◌≡◌, ◌<◌, IsTrue, map, min};
ghost use Rattle.std.specs.Ordering.{is_lt, nat_cmp};
ghost use Rattle.sig_base.specs.Identifiers.{is_numeral};
ghost use Rattle.type_core.specs.Labels.{are_in_order, are_record_labels, are_tuple_labels, count_on_from, is_numeral_of, label_order, value_of};

use crate::ty::Field;
use sig_base::is_numeral;
use std::cmp::Ordering;

/// The order of a record's labels: numerals come first, by value; then the others, by bytes. A label is an
/// identifier or a numeral (the Definition, section 2.4).
#[tactic(auto, unfolding(crate::specs::Labels::label_order))]
pub fn compare_labels(a: &[u8], b: &[u8]) -> Ordering
    ensures value { result ≡ label_order a.now b.now }
{
    if is_numeral(a) {
        if is_numeral(b) {
            compare_numerals(a, b)
        } else {
            Ordering::Less
        }
    } else if is_numeral(b) {
        Ordering::Greater
    } else {
        a.cmp(b)
    }
}

fn compare_numerals(a: &[u8], b: &[u8]) -> Ordering
    requires first { IsTrue (is_numeral a.now) }
    requires second { IsTrue (is_numeral b.now) }
    ensures value { result ≡ nat_cmp (value_of a.now) (value_of b.now) }
{
    if a.len() < b.len() {
        Ordering::Less
    } else if b.len() < a.len() {
        Ordering::Greater
    } else {
        a.cmp(b)
    }
}

/// The number of which these are the decimal digits, or `u64::MAX` where that is less.
fn value(text: &[u8]) -> u64
    ensures value { result ≡ min (value_of text.now) u64.MAX }
{
    let mut n: u64 = 0;
    for b in text {
        n = n
            .saturating_mul(10)
            .saturating_add(u64::from(b.saturating_sub(b'0')));
    }
    n
}

fn is_numeral_of(text: &[u8], n: u64) -> bool
    requires small { n < u64.MAX }
    ensures value { result ≡ is_numeral_of n text.now }
{
    is_numeral(text) && value(text) == n
}

fn are_in_order(fields: &[Field]) -> bool
    ensures value { result ≡ are_in_order (map (λ field. field.label) fields.now) }
{
    for i in 1..fields.len() {
        if !comes_before(fields[i - 1].label.as_slice(), fields[i].label.as_slice()) {
            return false;
        }
    }
    true
}

/// Whether a label comes before another one.
pub(crate) fn comes_before(label: &[u8], next: &[u8]) -> bool
    ensures value { result ≡ is_lt (label_order label.now next.now) }
{
    match compare_labels(label, next) {
        Ordering::Less => true,
        _ => false,
    }
}

/// Whether the labels are the numerals of 1, 2 and so on.
fn count_on(fields: &[Field]) -> bool
    ensures value { result ≡ count_on_from 0 (map (λ field. field.label) fields.now) }
{
    for i in 0..fields.len() {
        if !is_numeral_of(fields[i].label.as_slice(), i as u64 + 1) {
            return false;
        }
    }
    true
}

/// Whether the labels of these fields are those of a tuple.
pub(crate) fn are_tuple_labels(fields: &[Field]) -> bool
    ensures value { result ≡ are_tuple_labels (map (λ field. field.label) fields.now) }
{
    match fields {
        [] => false,
        [_] => false,
        _ => count_on(fields),
    }
}

/// Whether a record may have the labels of these fields.
pub(crate) fn are_record_labels(fields: &[Field]) -> bool
    ensures value { result ≡ are_record_labels (map (λ field. field.label) fields.now) }
{
    match fields {
        [] => false,
        [_] => true,
        _ => are_in_order(fields) && !are_tuple_labels(fields),
    }
}
