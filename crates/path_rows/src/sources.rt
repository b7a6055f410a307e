//! The functions.

/// How many expressions each function has.
pub const EXPRESSIONS: [u32; 13] = [1, 2, 1, 1, 2, 3, 1, 2, 1, 2, 2, 1, 1];

/// A loop, nested loops, a block without a path, slots to one block, a block that leads to itself, a loop with two
/// entries, blocks that end by `unreachable`, endless loops without and with an expression, kills behind occurrences,
/// divisions beside calls and other operations that can trap, two expressions in turn, an endless loop behind all
/// occurrences, and an expression of a global beside a call.
pub const FUNCTIONS: &[u8] = b"
define i32 @loops(i1 %c, i32 %p) {
entry:
  %a = alloca i32
  store i32 %p, ptr %a
  br label %head
head:
  br i1 %c, label %body, label %exit
body:
  %x = load i32, ptr %a
  %y = mul i32 %x, %p
  br label %head
exit:
  %u = load i32, ptr %a
  %v = mul i32 %u, %p
  ret i32 %v
}
define i32 @nested(i1 %c, i1 %d, i32 %p) {
entry:
  %a = alloca i32
  br label %outer
outer:
  br i1 %c, label %inner, label %exit
inner:
  %x = load i32, ptr %a
  %y = add i32 %x, %p
  br i1 %d, label %turn, label %latch
turn:
  %z = mul i32 %p, 3
  br label %inner
latch:
  store i32 %p, ptr %a
  br label %outer
exit:
  %u = load i32, ptr %a
  %v = add i32 %u, %p
  ret i32 %v
}
define i32 @lost(i32 %p) {
entry:
  br label %end
away:
  %x = add i32 %p, 1
  br label %end
end:
  %y = add i32 %p, 1
  ret i32 %y
}
define i32 @parallel(i1 %c, i32 %p) {
entry:
  %a = alloca i32
  br i1 %c, label %same, label %same
same:
  %x = load i32, ptr %a
  %y = add i32 %x, %p
  switch i32 %p, label %end [ i32 1, label %arm i32 2, label %arm i32 3, label %end ]
arm:
  store i32 0, ptr %a
  switch i32 %p, label %end [ i32 5, label %end i32 6, label %end ]
end:
  %u = load i32, ptr %a
  %v = add i32 %u, %p
  ret i32 %v
}
define i32 @itself(i1 %c, i32 %p) {
entry:
  %a = alloca i32
  br label %turn
turn:
  %x = load i32, ptr %a
  %y = add i32 %x, %p
  store i32 %y, ptr %a
  %z = mul i32 %p, %p
  br i1 %c, label %turn, label %exit
exit:
  %u = load i32, ptr %a
  %v = add i32 %u, %p
  ret i32 %v
}
define i32 @irreducible(i1 %c, i1 %d, i32 %p) {
entry:
  %a = alloca i32
  %b = alloca i32
  br i1 %c, label %left, label %right
left:
  %x = load i32, ptr %a
  %y = add i32 %x, %p
  %q = load i32, ptr %b
  %r = sub i32 %q, %p
  br label %right
right:
  %z = mul i32 %p, 5
  store i32 %z, ptr %b
  br i1 %d, label %left, label %exit
exit:
  %u = load i32, ptr %a
  %v = add i32 %u, %p
  ret i32 %v
}
define i32 @stops(i1 %c, i32 %p) {
entry:
  br i1 %c, label %on, label %off
on:
  %x = xor i32 %p, 7
  unreachable
off:
  br i1 %c, label %more, label %none
more:
  %y = xor i32 %p, 7
  ret i32 %y
none:
  unreachable
}
define i32 @endless(i1 %c, i1 %d, i32 %p) {
entry:
  br i1 %c, label %round, label %other
round:
  br label %back
back:
  br label %round
other:
  br i1 %d, label %computes, label %end
computes:
  %x = add i32 %p, 1
  %y = mul i32 %p, 2
  br label %computes
end:
  %z = add i32 %p, 1
  ret i32 %z
}
define i32 @killed(i1 %c, i32 %p) {
entry:
  %a = alloca i32
  %x = load i32, ptr %a
  %y = add i32 %x, %p
  store i32 %y, ptr %a
  br i1 %c, label %again, label %end
again:
  store i32 0, ptr %a
  %u = load i32, ptr %a
  %v = add i32 %u, %p
  %w = add i32 %u, %p
  store i32 %w, ptr %a
  %s = load i32, ptr %a
  %t = add i32 %s, %p
  store i32 %t, ptr %a
  store i32 %t, ptr %a
  br label %end
end:
  %l = load i32, ptr %a
  %m = add i32 %l, %p
  ret i32 %m
}
define i32 @divides(i1 %c, i32 %p, i32 %q) {
entry:
  br i1 %c, label %calls, label %plain
calls:
  %x = call i32 @putchar(i32 65)
  br label %join
plain:
  %r = urem i32 %p, %q
  br label %join
join:
  %y = sdiv i32 %p, %q
  %z = call i32 @putchar(i32 %y)
  %w = sdiv i32 %p, %q
  ret i32 %w
}
define i32 @in_turn(i1 %c, i32 %p) {
entry:
  %a = alloca i32
  %b = alloca i32
  br label %head
head:
  %x = load i32, ptr %a
  %y = add i32 %x, %p
  store i32 %y, ptr %b
  br i1 %c, label %back, label %exit
back:
  %u = load i32, ptr %b
  %v = sub i32 %u, %p
  store i32 %v, ptr %a
  br label %head
exit:
  %l = load i32, ptr %a
  %m = add i32 %l, %p
  %n = load i32, ptr %b
  %o = sub i32 %n, %p
  ret i32 %o
}
define void @spins(i1 %c, i32 %p) {
entry:
  %x = add i32 %p, 9
  br i1 %c, label %round, label %arm
round:
  br label %round
arm:
  %y = add i32 %p, 9
  br label %round
}
define i32 @changes(i32 %p) {
entry:
  %x = load i32, ptr @g
  %y = add i32 %x, %p
  %z = call i32 @lost(i32 %p)
  %u = load i32, ptr @g
  %v = add i32 %u, %p
  ret i32 %v
}
@g = global i32 5
declare i32 @putchar(i32)
";
