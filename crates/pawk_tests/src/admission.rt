//! What records of programs do with their globals, by name, and budgets and assignments that settings refuse.

use crate::fixtures::{code_of, request_of};
use crate::rows::first_number;
use pawk_admit::{Role, Roles, admit};
use pawk_code::program::Code;
use pawk_par::{Cutting, Request, StreamRefusal, prepare};
use pawk_settings::Settings;
use std::alloc::{AllocError, Global};
use std::test::Fail;

/// How many variables of the language have the first slots.
const LANGUAGE: usize = 7;

/// Programs that may run in chunks, and before each the roles of its globals: scalars and then arrays by their slots, but no
/// variable of the language that is fixed.
const ROLES: &str = "\
n=fixed: BEGIN { n = 1 }
n=adder: BEGIN { n = 5 } { n += $1 } END { print n }
n=adder: { n += $1 } END { print n }
n=adder: { n -= $2 }
n=adder: { n++ }
n=adder: { n-- }
n=adder: { ++n }
n=adder: { --n }
n=adder: { n++; n += 2; --n }
last=setter: { last = $0 } END { print last }
x=setter: { x = 1; x = 2 }
x=setter: { x = 1 } END { x += 2; print x }
a=adder: { a[$1] += $2 }
k=fixed a=adder: { a[$1]++ } END { for (k in a) print k, a[k] }
a=adder: { a[1, 2] -= 3 }
k=fixed b=setter: { b[$1] = NR } END { for (k in b) print k }
i=fixed a=setter: { a[NR] = $0 } END { for (i in a) print a[i] }
b=reader: { print b[$1] }
a=reader: { print a[1, 2] }
a=reader: { a[1]; print a[2] }
a=adder b=reader: { a[b[$1]] += 1 }
a=adder b=reader: { a[$1] += b[$2] }
a=setter b=reader: { a[b[$1]] = $2 }
b=reader: BEGIN { b[\"x\"] = 1 } b[$1] { print }
b=fixed: $1 in b { print }
b=fixed: $1 in b { print b[$1] }
b=fixed: (1, 2) in b { print }
b=fixed: BEGIN { b[1] = 2 } END { print b[1] }
b=fixed: function f(k) { for (k in b) print k } { f() }
n=adder n2=fixed m=setter a=setter b=reader: { n += $1; a[$2] = n2; m = b[$3] }
n=fixed: n
n=fixed: !n
n=fixed: $1 > n { print n }
x=fixed y=fixed z=fixed: { print x ? y : z }
f=fixed: { printf f, $1 }
n=fixed: { print $n }
n=fixed: { $n += 1; $2++; $3 = n }
n=fixed m=adder k=setter: { if ($1 > n) m++; else k = $1 }
n=adder: { next } { n++ }
RS=setter: { RS = \";\" }
CONVFMT=setter: { CONVFMT = \"%d\" }
OFMT=adder: { OFMT += 1 }
RS=adder: { RS++ }
n=adder: { for (n++; 0; n++) print }
last=setter m=adder: { for (last = $1; 0; m += 2) print }
n=adder: { do n++; while (0) }
n=adder: { while ($1 < 0) n++ }
n=fixed: function g() { n = n + 1 } { print }
n=fixed: function g() { n = n + 1 } function f() { g() } END { f() }
n=fixed: function g() { n = n + 1 } BEGIN { g() } { print n }
n=adder: function f() { return f() } { n += f() }
n=adder: function f() { g() } function g() { n++; f() } { f() }
n=adder: function f() { n++ } function g() { print n } { f() } END { g() }
n=adder: function f(i, s) { for (i = 1; i <= NF; i++) s += $i; return s } { n += f() }
y=setter n=fixed: function f(x) { x = 1; x++; y = x } { f(n) }
n=fixed m=fixed nextname=fixed: END { /a/ ? n++ : m; nextname = n }
";

/// The word for a role.
fn word(role: Role) -> &'static [u8] {
    match role {
        Role::Fixed => b"=fixed",
        Role::Adder => b"=adder",
        Role::Setter => b"=setter",
        Role::Reader => b"=reader",
    }
}

/// What comes after a name and its role, before which there may be a blank.
fn after_role<'t>(name: &[u8], role: Role, text: &'t [u8]) -> Option<&'t [u8]> {
    let text = text.strip_prefix(b" ").unwrap_or(text);
    text.strip_prefix(name)?.strip_prefix(word(role))
}

/// What comes after the roles of names, but of the first `skipped` only those that are not fixed.
fn after_roles<'t>(
    names: &[Vec<u8>],
    roles: &[Role],
    skipped: usize,
    text: &'t [u8],
) -> Option<&'t [u8]> {
    let mut rest = text;
    for (slot, (name, role)) in names.iter().zip(roles).enumerate() {
        if slot >= skipped || *role != Role::Fixed {
            rest = after_role(name.as_slice(), *role, rest)?;
        }
    }
    Some(rest)
}

/// What comes after the roles of the globals of a program.
fn after_all_roles<'t>(code: &Code, roles: &Roles, text: &'t [u8]) -> Option<&'t [u8]> {
    let scalars = code.scalars.as_slice();
    let arrays = code.arrays.as_slice();
    let rest = after_roles(scalars, roles.scalars.as_slice(), LANGUAGE, text)?;
    after_roles(arrays, roles.arrays.as_slice(), 0, rest)
}

/// Whether a program may run in chunks, and a text says these roles of its globals.
fn are_roles(alloc: Global, code: &Code, text: &[u8]) -> bool {
    match admit(alloc, code) {
        Ok(roles) => matches!(after_all_roles(code, &roles, text), Some([])),
        Err(_) => false,
    }
}

/// Whether a program's text may run in chunks, and its globals have these roles.
fn has_roles(alloc: Global, text: &[u8], wanted: &[u8]) -> Result<bool, StreamRefusal> {
    let code = code_of(alloc, text)?;
    Ok(are_roles(alloc, &code, wanted))
}

/// Whether a row of roles is right.
fn is_admitted_so(alloc: Global, row: &str) -> Result<bool, StreamRefusal> {
    let (wanted, text) = row.split_once(':').unwrap_or((row, ""));
    has_roles(alloc, text.as_bytes(), wanted.as_bytes())
}

#[test]
fn globals_have_roles(rt: HostRuntime) -> Result<(), Fail> {
    for row in ROLES.lines() {
        assert!(rt; is_admitted_so(rt.alloc(), row)?, "{row}");
    }
    let lines = b"{ print $1 $2 }\n{ n++ }";
    assert!(rt; has_roles(rt.alloc(), lines, b"n=adder")?);
    Ok(())
}

/// The number of the refusal, or else the budget; the budget that is asked for; and names and values that are assigned.
///
/// The first assignment at fault counts, by its lowest number: 1 no name, 2 not assignable, 3 an escape; 4 is the budget,
/// which counts last.
const SETTINGS: &str = "\
1 0 2x=\\q NR=1
3 0 x=\\q 2x=1
2 0 NR=\\q
2 0 x=1 NF=\\q
4 0 x=1
4 0
1 1
1000000000000 1000000000000
4 1000000000001 x=1
4 18446744073709551615
";

/// A name and a value.
fn assigned_in(alloc: Global, cell: &str) -> Result<(Vec<u8>, Vec<u8>), AllocError> {
    let (name, value) = cell.split_once('=').unwrap_or((cell, ""));
    let name = Vec::from_slice(alloc, name.as_bytes())?;
    Ok((name, Vec::from_slice(alloc, value.as_bytes())?))
}

/// The names and values that a text says.
fn all_assigned_in(alloc: Global, text: &str) -> Result<Vec<(Vec<u8>, Vec<u8>)>, AllocError> {
    let mut assigned = Vec::new(alloc);
    for cell in text.split_terminator(' ') {
        assigned.push(assigned_in(alloc, cell)?)?;
    }
    Ok(assigned)
}

/// The budget of the settings of a request, or the number for which they are refused.
fn number_of(answer: &Result<(Code, Settings), StreamRefusal>) -> u64 {
    match answer {
        Ok((_, settings)) => settings.budget(),
        Err(StreamRefusal::Settings(why)) => u64::from(why.number()),
        Err(_) => 0,
    }
}

/// Whether a row of settings is right for a program.
fn is_set_so(alloc: Global, row: &str) -> Result<bool, AllocError> {
    let (wanted, row) = first_number(row);
    let (budget, row) = first_number(row);
    let assigns = all_assigned_in(alloc, row)?;
    let cutting = Cutting::Size(1);
    let request = Request {
        assigns: assigns.as_slice(),
        ..request_of(b"{ x = y }", budget, &cutting)
    };
    Ok(number_of(&prepare(alloc, &request)) == wanted)
}

#[test]
fn settings_are_refused(rt: HostRuntime) -> Result<(), Fail> {
    for row in SETTINGS.lines() {
        assert!(rt; is_set_so(rt.alloc(), row)?, "{row}");
    }
    Ok(())
}
