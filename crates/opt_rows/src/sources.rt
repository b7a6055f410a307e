//! The modules, each before and behind its placements.

/// A branch with an expression in one arm and behind both.
pub(crate) const ARM: &str = "declare i32 @getchar()

define i32 @main() {
entry:
  %a = alloca i32
  %b = alloca i32
  %s = alloca i32
  %g = call i32 @getchar()
  store i32 %g, ptr %a
  %h = call i32 @getchar()
  store i32 %h, ptr %b
  %g1 = load i32, ptr %a
  %c = icmp eq i32 %g1, 65
  br i1 %c, label %left, label %right
left:
  %x1 = load i32, ptr %a
  %x2 = load i32, ptr %b
  %x = add i32 %x1, %x2
  store i32 %x, ptr %s
  br label %join
right:
  br label %join
join:
  %y1 = load i32, ptr %a
  %y2 = load i32, ptr %b
  %y = add i32 %y1, %y2
  ret i32 %y
}
";

/// Counts of runs of which most take that arm.
pub(crate) const ARM_COUNTS: &str =
    "mcpre-profile 1\nfunc 0 100\nblock 0 90 10\nblock 1 90\nblock 2 10\nblock 3\n";

/// It is kept in that arm and inserted in the other.
pub(crate) const ARM_DONE: &str = "declare i32 @getchar()

define i32 @main() {
entry:
  %a = alloca i32
  %b = alloca i32
  %s = alloca i32
  %pre.1 = alloca i32
  %g = call i32 @getchar()
  store i32 %g, ptr %a
  %h = call i32 @getchar()
  store i32 %h, ptr %b
  %g1 = load i32, ptr %a
  %c = icmp eq i32 %g1, 65
  br i1 %c, label %left, label %right
left:
  %x1 = load i32, ptr %a
  %x2 = load i32, ptr %b
  %x = add i32 %x1, %x2
  store i32 %x, ptr %pre.1
  store i32 %x, ptr %s
  br label %join
right:
  %pre.1.17.0 = load i32, ptr %a
  %pre.1.17.1 = load i32, ptr %b
  %pre.1.17 = add i32 %pre.1.17.0, %pre.1.17.1
  store i32 %pre.1.17, ptr %pre.1
  br label %join
join:
  %y1 = load i32, ptr %a
  %y2 = load i32, ptr %b
  %y = load i32, ptr %pre.1
  ret i32 %y
}
";

/// An expression in both arms.
pub(crate) const BOTH: &str = "declare i32 @getchar()

define i32 @main() {
entry:
  %a = alloca i32
  %g = call i32 @getchar()
  store i32 %g, ptr %a
  %g1 = load i32, ptr %a
  %c = icmp slt i32 %g1, 0
  br i1 %c, label %cold, label %warm
cold:
  %a2 = load i32, ptr %a
  %y = add i32 %a2, 1
  ret i32 %y
warm:
  %a3 = load i32, ptr %a
  %z = add i32 %a3, 1
  ret i32 %z
}
";

/// Counts of runs that never take the cold one.
pub(crate) const BOTH_COUNTS: &str =
    "mcpre-profile 1\nfunc 0 100\nblock 0 0 100\nblock 1\nblock 2\n";

/// Counts of runs that take both.
pub(crate) const BOTH_EVEN: &str = "mcpre-profile 1\nfunc 0 100\nblock 0 50 50\nblock 1\nblock 2\n";

/// It is inserted on both slots.
pub(crate) const BOTH_ON_SLOTS: &str = "declare i32 @getchar()

define i32 @main() {
entry:
  %a = alloca i32
  %pre.1 = alloca i32
  %g = call i32 @getchar()
  store i32 %g, ptr %a
  %g1 = load i32, ptr %a
  %c = icmp slt i32 %g1, 0
  br i1 %c, label %pre.b.6, label %pre.b.7
pre.b.6:
  %pre.1.6.0 = load i32, ptr %a
  %pre.1.6 = add i32 %pre.1.6.0, 1
  store i32 %pre.1.6, ptr %pre.1
  br label %cold
pre.b.7:
  %pre.1.7.0 = load i32, ptr %a
  %pre.1.7 = add i32 %pre.1.7.0, 1
  store i32 %pre.1.7, ptr %pre.1
  br label %warm
cold:
  %a2 = load i32, ptr %a
  %y = load i32, ptr %pre.1
  ret i32 %y
warm:
  %a3 = load i32, ptr %a
  %z = load i32, ptr %pre.1
  ret i32 %z
}
";

/// It is inserted above the branch.
pub(crate) const BOTH_ABOVE: &str = "declare i32 @getchar()

define i32 @main() {
entry:
  %a = alloca i32
  %pre.1 = alloca i32
  %g = call i32 @getchar()
  store i32 %g, ptr %a
  %g1 = load i32, ptr %a
  %c = icmp slt i32 %g1, 0
  %pre.1.5.0 = load i32, ptr %a
  %pre.1.5 = add i32 %pre.1.5.0, 1
  store i32 %pre.1.5, ptr %pre.1
  br i1 %c, label %cold, label %warm
cold:
  %a2 = load i32, ptr %a
  %y = load i32, ptr %pre.1
  ret i32 %y
warm:
  %a3 = load i32, ptr %a
  %z = load i32, ptr %pre.1
  ret i32 %z
}
";

/// A loop with an expression in an arm.
pub(crate) const LOOP: &str = "define i32 @main() {
entry:
  %a = alloca i32
  %b = alloca i32
  %i = alloca i32
  %t = alloca i32
  br label %head
head:
  %i1 = load i32, ptr %i
  %c = icmp ult i32 %i1, 1000
  br i1 %c, label %body, label %exit
body:
  %i2 = load i32, ptr %i
  %m = urem i32 %i2, 100
  %d = icmp ne i32 %m, 0
  br i1 %d, label %arm, label %latch
arm:
  %x1 = load i32, ptr %a
  %x2 = load i32, ptr %b
  %x = mul i32 %x1, %x2
  store i32 %x, ptr %t
  br label %latch
latch:
  %i3 = load i32, ptr %i
  %n = add i32 %i3, 1
  store i32 %n, ptr %i
  br label %head
exit:
  ret i32 0
}
";

/// Counts of one run.
pub(crate) const LOOP_COUNTS: &str =
    "mcpre-profile 1\nfunc 0 1\nblock 0 1\nblock 1 1000 1\nblock 2 990 10\nblock 3 990\nblock 4 1000\nblock 5\n";

/// It is inserted before the loop.
pub(crate) const LOOP_DONE: &str = "define i32 @main() {
entry:
  %a = alloca i32
  %b = alloca i32
  %i = alloca i32
  %t = alloca i32
  %pre.2 = alloca i32
  %pre.2.2.0 = load i32, ptr %a
  %pre.2.2.1 = load i32, ptr %b
  %pre.2.2 = mul i32 %pre.2.2.0, %pre.2.2.1
  store i32 %pre.2.2, ptr %pre.2
  br label %head
head:
  %i1 = load i32, ptr %i
  %c = icmp ult i32 %i1, 1000
  br i1 %c, label %body, label %exit
body:
  %i2 = load i32, ptr %i
  %m = urem i32 %i2, 100
  %d = icmp ne i32 %m, 0
  br i1 %d, label %arm, label %latch
arm:
  %x1 = load i32, ptr %a
  %x2 = load i32, ptr %b
  %x = load i32, ptr %pre.2
  store i32 %x, ptr %t
  br label %latch
latch:
  %i3 = load i32, ptr %i
  %n = add i32 %i3, 1
  store i32 %n, ptr %i
  br label %head
exit:
  ret i32 0
}
";

/// An expression again in a cold arm.
pub(crate) const COLD: &str = "define i32 @main() {
entry:
  %a = alloca i32
  %t = alloca i32
  %a1 = load i32, ptr %a
  %x = add i32 %a1, 1
  %c = icmp eq i32 %x, 9
  br i1 %c, label %cold, label %end
cold:
  %a2 = load i32, ptr %a
  %y = add i32 %a2, 1
  store i32 %y, ptr %t
  br label %end
end:
  ret i32 0
}
";

/// Counts of runs of which few come there.
pub(crate) const COLD_COUNTS: &str =
    "mcpre-profile 1\nfunc 0 100\nblock 0 1 99\nblock 1 1\nblock 2\n";

/// It is kept where it comes first.
pub(crate) const COLD_DONE: &str = "define i32 @main() {
entry:
  %a = alloca i32
  %t = alloca i32
  %pre.0 = alloca i32
  %a1 = load i32, ptr %a
  %x = add i32 %a1, 1
  store i32 %x, ptr %pre.0
  %c = icmp eq i32 %x, 9
  br i1 %c, label %cold, label %end
cold:
  %a2 = load i32, ptr %a
  %y = load i32, ptr %pre.0
  store i32 %y, ptr %t
  br label %end
end:
  ret i32 0
}
";

/// A branch with two slots to one block.
pub(crate) const TWO_SLOTS: &str = "declare i32 @getchar()

define i32 @main() {
entry:
  %a = alloca i32
  %g = call i32 @getchar()
  store i32 %g, ptr %a
  %v = load i32, ptr %a
  %c = icmp eq i32 %v, 65
  br i1 %c, label %end, label %end
end:
  %a1 = load i32, ptr %a
  %x = add i32 %a1, 1
  ret i32 %x
}
";

/// An expression of that block is inserted on both.
pub(crate) const TWO_SLOTS_DONE: &str = "declare i32 @getchar()

define i32 @main() {
entry:
  %a = alloca i32
  %pre.1 = alloca i32
  %g = call i32 @getchar()
  store i32 %g, ptr %a
  %v = load i32, ptr %a
  %c = icmp eq i32 %v, 65
  br i1 %c, label %pre.b.6, label %pre.b.7
pre.b.6:
  %pre.1.6.0 = load i32, ptr %a
  %pre.1.6 = add i32 %pre.1.6.0, 1
  store i32 %pre.1.6, ptr %pre.1
  br label %end
pre.b.7:
  %pre.1.7.0 = load i32, ptr %a
  %pre.1.7 = add i32 %pre.1.7.0, 1
  store i32 %pre.1.7, ptr %pre.1
  br label %end
end:
  %a1 = load i32, ptr %a
  %x = load i32, ptr %pre.1
  ret i32 %x
}
";

/// A switch without cases.
pub(crate) const DEFAULT_ALONE: &str = "declare i32 @getchar()

define i32 @main() {
entry:
  %a = alloca i32
  %g = call i32 @getchar()
  store i32 %g, ptr %a
  %v = load i32, ptr %a
  switch i32 %v, label %end [ ]
end:
  %a1 = load i32, ptr %a
  %x = add i32 %a1, 1
  ret i32 %x
}
";

/// An expression is inserted on its slot.
pub(crate) const DEFAULT_ALONE_DONE: &str = "declare i32 @getchar()

define i32 @main() {
entry:
  %a = alloca i32
  %pre.0 = alloca i32
  %g = call i32 @getchar()
  store i32 %g, ptr %a
  %v = load i32, ptr %a
  %pre.0.5.0 = load i32, ptr %a
  %pre.0.5 = add i32 %pre.0.5.0, 1
  store i32 %pre.0.5, ptr %pre.0
  switch i32 %v, label %end [ ]
end:
  %a1 = load i32, ptr %a
  %x = load i32, ptr %pre.0
  ret i32 %x
}
";

/// Expressions of a parameter in an entry block.
pub(crate) const ENTRY: &str = "define i32 @f(i32 %p) {
entry:
  %x = add i32 %p, 1
  %y = mul i32 %p, 3
  %z = sub i32 %x, %y
  ret i32 %z
}

define i32 @main() {
entry:
  %r = call i32 @f(i32 7)
  ret i32 %r
}
";

/// Both are inserted on its entry edge.
pub(crate) const ENTRY_DONE: &str = "define i32 @f(i32 %p) {
entry:
  %pre.0 = alloca i32
  %pre.1 = alloca i32
  %pre.0.0 = add i32 %p, 1
  store i32 %pre.0.0, ptr %pre.0
  %pre.1.0 = mul i32 %p, 3
  store i32 %pre.1.0, ptr %pre.1
  %x = load i32, ptr %pre.0
  %y = load i32, ptr %pre.1
  %z = sub i32 %x, %y
  ret i32 %z
}

define i32 @main() {
entry:
  %r = call i32 @f(i32 7)
  ret i32 %r
}
";

/// A division in one arm and behind both.
pub(crate) const QUOTIENT: &str = "declare i32 @getchar()

define i32 @main() {
entry:
  %a = alloca i32
  %b = alloca i32
  %s = alloca i32
  %g = call i32 @getchar()
  store i32 %g, ptr %a
  %h = call i32 @getchar()
  store i32 %h, ptr %b
  %g1 = load i32, ptr %a
  %c = icmp eq i32 %g1, 65
  br i1 %c, label %left, label %right
left:
  %x1 = load i32, ptr %a
  %x2 = load i32, ptr %b
  %x = sdiv i32 %x1, %x2
  store i32 %x, ptr %s
  br label %join
right:
  br label %join
join:
  %y1 = load i32, ptr %a
  %y2 = load i32, ptr %b
  %y = sdiv i32 %y1, %y2
  ret i32 %y
}
";

/// It is inevitable behind both arms, so it is kept in that arm and inserted in the other.
pub(crate) const QUOTIENT_DONE: &str = "declare i32 @getchar()

define i32 @main() {
entry:
  %a = alloca i32
  %b = alloca i32
  %s = alloca i32
  %pre.1 = alloca i32
  %g = call i32 @getchar()
  store i32 %g, ptr %a
  %h = call i32 @getchar()
  store i32 %h, ptr %b
  %g1 = load i32, ptr %a
  %c = icmp eq i32 %g1, 65
  br i1 %c, label %left, label %right
left:
  %x1 = load i32, ptr %a
  %x2 = load i32, ptr %b
  %x = sdiv i32 %x1, %x2
  store i32 %x, ptr %pre.1
  store i32 %x, ptr %s
  br label %join
right:
  %pre.1.17.0 = load i32, ptr %a
  %pre.1.17.1 = load i32, ptr %b
  %pre.1.17 = sdiv i32 %pre.1.17.0, %pre.1.17.1
  store i32 %pre.1.17, ptr %pre.1
  br label %join
join:
  %y1 = load i32, ptr %a
  %y2 = load i32, ptr %b
  %y = load i32, ptr %pre.1
  ret i32 %y
}
";

/// A division behind a loop and behind what is shown, before which it isn't inevitable.
pub(crate) const SHOWN: &str = "declare i32 @getchar()

declare i32 @putchar(i32)

define i32 @main() {
entry:
  %a = alloca i32
  %b = alloca i32
  %i = alloca i32
  %g = call i32 @getchar()
  store i32 %g, ptr %a
  %h = call i32 @getchar()
  store i32 %h, ptr %b
  store i32 3, ptr %i
  br label %loop
loop:
  %i1 = load i32, ptr %i
  %j = sub i32 %i1, 1
  store i32 %j, ptr %i
  %c = icmp eq i32 %j, 0
  br i1 %c, label %done, label %loop
done:
  %p = call i32 @putchar(i32 65)
  %a1 = load i32, ptr %a
  %b1 = load i32, ptr %b
  %x = sdiv i32 %a1, %b1
  ret i32 %x
}
";

/// The loop is gone through three times.
pub(crate) const SHOWN_COUNTS: &str =
    "mcpre-profile 1\nfunc 0 1\nblock 0 1\nblock 1 1 2\nblock 2\n";

/// A function of one block that is entered once.
pub(crate) const ONCE: &str = "mcpre-profile 1\nfunc 0 1\nblock 0\n";

/// Two such functions.
pub(crate) const TWICE: &str = "mcpre-profile 1\nfunc 0 1\nblock 0\nfunc 1 1\nblock 0\n";

/// An expression three times in a block, with a store between.
pub(crate) const AGAIN: &str = "define i32 @main() {
entry:
  %a = alloca i32
  %a1 = load i32, ptr %a
  %x = add i32 %a1, 1
  store i32 %x, ptr %a
  %a2 = load i32, ptr %a
  %y = add i32 %a2, 1
  %a3 = load i32, ptr %a
  %z = add i32 %a3, 1
  ret i32 %z
}
";

/// It is kept first and behind the store.
pub(crate) const AGAIN_DONE: &str = "define i32 @main() {
entry:
  %a = alloca i32
  %pre.0 = alloca i32
  %a1 = load i32, ptr %a
  %x = add i32 %a1, 1
  store i32 %x, ptr %a
  %a2 = load i32, ptr %a
  %y = add i32 %a2, 1
  store i32 %y, ptr %pre.0
  %a3 = load i32, ptr %a
  %z = load i32, ptr %pre.0
  ret i32 %z
}
";

/// The same, with a register that has the name of a temporary.
pub(crate) const TAKEN: &str = "define i32 @main() {
entry:
  %a = alloca i32
  %pre.0 = load i32, ptr %a
  %x = add i32 %pre.0, 1
  store i32 %x, ptr %a
  %a2 = load i32, ptr %a
  %y = add i32 %a2, 1
  %a3 = load i32, ptr %a
  %z = add i32 %a3, 1
  ret i32 %z
}
";

/// The temporary has another name.
pub(crate) const TAKEN_DONE: &str = "define i32 @main() {
entry:
  %a = alloca i32
  %pre1.0 = alloca i32
  %pre.0 = load i32, ptr %a
  %x = add i32 %pre.0, 1
  store i32 %x, ptr %a
  %a2 = load i32, ptr %a
  %y = add i32 %a2, 1
  store i32 %y, ptr %pre1.0
  %a3 = load i32, ptr %a
  %z = load i32, ptr %pre1.0
  ret i32 %z
}
";

/// An expression of a global, with a call of a defined function.
pub(crate) const GLOBAL: &str = "@g = dso_local global i32 5, align 4
define i32 @main() {
  %1 = load i32, ptr @g, align 4
  %2 = add nsw i32 %1, 1
  %3 = call i32 @f()
  %4 = load i32, ptr @g, align 4
  %5 = add nsw i32 %4, 1
  %6 = load i32, ptr @g, align 4
  %7 = add nsw i32 %6, 1
  ret i32 %7
}
define i32 @f() {
  store i32 7, ptr @g, align 4
  ret i32 0
}
";

/// It is kept first and behind the call.
pub(crate) const GLOBAL_DONE: &str = "@g = global i32 5

define i32 @main() {
0:
  %pre.0 = alloca i32
  %1 = load i32, ptr @g
  %2 = add i32 %1, 1
  %3 = call i32 @f()
  %4 = load i32, ptr @g
  %5 = add i32 %4, 1
  store i32 %5, ptr %pre.0
  %6 = load i32, ptr @g
  %7 = load i32, ptr %pre.0
  ret i32 %7
}

define i32 @f() {
0:
  store i32 7, ptr @g
  ret i32 0
}
";

/// An expression of a global, with a call of an external function.
pub(crate) const READS: &str = "@g = dso_local global i32 5, align 4
declare i32 @getchar()
define i32 @main() {
  %1 = load i32, ptr @g, align 4
  %2 = add nsw i32 %1, 1
  %3 = call i32 @getchar()
  %4 = load i32, ptr @g, align 4
  %5 = add nsw i32 %4, 1
  %6 = load i32, ptr @g, align 4
  %7 = add nsw i32 %6, 1
  ret i32 %7
}
";

/// It is kept first.
pub(crate) const READS_DONE: &str = "@g = global i32 5

declare i32 @getchar()

define i32 @main() {
0:
  %pre.0 = alloca i32
  %1 = load i32, ptr @g
  %2 = add i32 %1, 1
  store i32 %2, ptr %pre.0
  %3 = call i32 @getchar()
  %4 = load i32, ptr @g
  %5 = load i32, ptr %pre.0
  %6 = load i32, ptr @g
  %7 = load i32, ptr %pre.0
  ret i32 %7
}
";

/// Two expressions, one of a global, with calls of an external and of a defined function.
pub(crate) const CALLS: &str = "@g = global i32 5

declare i32 @putchar(i32)

define i32 @f() {
entry:
  store i32 7, ptr @g
  ret i32 0
}

define i32 @main() {
entry:
  %a = alloca i32
  store i32 60, ptr %a
  %g1 = load i32, ptr @g
  %a1 = load i32, ptr %a
  %x = add i32 %g1, %a1
  %u = mul i32 %a1, 2
  %p = call i32 @putchar(i32 %x)
  %g2 = load i32, ptr @g
  %a2 = load i32, ptr %a
  %y = add i32 %g2, %a2
  %v = mul i32 %a2, 2
  %q = call i32 @f()
  %g3 = load i32, ptr @g
  %a3 = load i32, ptr %a
  %z = add i32 %g3, %a3
  %w = mul i32 %a3, 2
  %s = mul i32 %y, %z
  %t = sub i32 %w, %s
  ret i32 %t
}
";

/// The one of the global alone is kept behind the second call.
pub(crate) const CALLS_DONE: &str = "@g = global i32 5

declare i32 @putchar(i32)

define i32 @f() {
entry:
  store i32 7, ptr @g
  ret i32 0
}

define i32 @main() {
entry:
  %a = alloca i32
  %pre.0 = alloca i32
  %pre.1 = alloca i32
  store i32 60, ptr %a
  %g1 = load i32, ptr @g
  %a1 = load i32, ptr %a
  %x = add i32 %g1, %a1
  store i32 %x, ptr %pre.0
  %u = mul i32 %a1, 2
  store i32 %u, ptr %pre.1
  %p = call i32 @putchar(i32 %x)
  %g2 = load i32, ptr @g
  %a2 = load i32, ptr %a
  %y = load i32, ptr %pre.0
  %v = load i32, ptr %pre.1
  %q = call i32 @f()
  %g3 = load i32, ptr @g
  %a3 = load i32, ptr %a
  %z = add i32 %g3, %a3
  %w = load i32, ptr %pre.1
  %s = mul i32 %y, %z
  %t = sub i32 %w, %s
  ret i32 %t
}
";

/// A block that no path reaches.
pub(crate) const LOST: &str = "define i32 @main() {
entry:
  %a = alloca i32
  br label %end
lost:
  %a1 = load i32, ptr %a
  %x = add i32 %a1, 1
  %y = add i32 %a1, 1
  br label %end
end:
  %a2 = load i32, ptr %a
  %z = add i32 %a2, 1
  %w = add i32 %a2, 1
  ret i32 %w
}
";

/// Counts of one run.
pub(crate) const LOST_COUNTS: &str = "mcpre-profile 1\nfunc 0 1\nblock 0 1\nblock 1 0\nblock 2\n";

/// It stays as it is.
pub(crate) const LOST_DONE: &str = "define i32 @main() {
entry:
  %a = alloca i32
  %pre.0 = alloca i32
  br label %end
lost:
  %a1 = load i32, ptr %a
  %x = add i32 %a1, 1
  %y = add i32 %a1, 1
  br label %end
end:
  %a2 = load i32, ptr %a
  %z = add i32 %a2, 1
  store i32 %z, ptr %pre.0
  %w = load i32, ptr %pre.0
  ret i32 %w
}
";

/// A division that can trap, twice.
pub(crate) const DIVIDES: &str = "declare i32 @getchar()

declare i32 @putchar(i32)

define i32 @main() {
entry:
  %a = alloca i32
  %b = alloca i32
  %g = call i32 @getchar()
  store i32 %g, ptr %a
  %h = call i32 @getchar()
  store i32 %h, ptr %b
  %p = call i32 @putchar(i32 %g)
  %a1 = load i32, ptr %a
  %b1 = load i32, ptr %b
  %x = sdiv i32 %a1, %b1
  %q = call i32 @putchar(i32 %x)
  %a2 = load i32, ptr %a
  %b2 = load i32, ptr %b
  %y = sdiv i32 %a2, %b2
  %s = add i32 %x, %y
  ret i32 %s
}
";

/// It is kept first, behind what is shown.
pub(crate) const DIVIDES_DONE: &str = "declare i32 @getchar()

declare i32 @putchar(i32)

define i32 @main() {
entry:
  %a = alloca i32
  %b = alloca i32
  %pre.0 = alloca i32
  %g = call i32 @getchar()
  store i32 %g, ptr %a
  %h = call i32 @getchar()
  store i32 %h, ptr %b
  %p = call i32 @putchar(i32 %g)
  %a1 = load i32, ptr %a
  %b1 = load i32, ptr %b
  %x = sdiv i32 %a1, %b1
  store i32 %x, ptr %pre.0
  %q = call i32 @putchar(i32 %x)
  %a2 = load i32, ptr %a
  %b2 = load i32, ptr %b
  %y = load i32, ptr %pre.0
  %s = add i32 %x, %y
  ret i32 %s
}
";
