//! Modules whose divisions trap on some inputs.

/// Divisions by zero and of the least value by -1: in front of what is shown and behind it, in loops, in arms and behind
/// them, two in turn, and in a function that is called. Lines of equals signs part the modules.
pub(crate) const TRAPS: &str = "declare i32 @getchar()
declare i32 @putchar(i32)
define i32 @main() {
  %a = alloca i32
  %b = alloca i32
  %g = call i32 @getchar()
  store i32 %g, ptr %a
  %h = call i32 @getchar()
  %z = sub i32 %h, 48
  store i32 %z, ptr %b
  %s = call i32 @putchar(i32 65)
  %a1 = load i32, ptr %a
  %b1 = load i32, ptr %b
  %x = sdiv i32 %a1, %b1
  %t = call i32 @putchar(i32 66)
  %a2 = load i32, ptr %a
  %b2 = load i32, ptr %b
  %y = sdiv i32 %a2, %b2
  %u = call i32 @putchar(i32 %y)
  ret i32 %x
}
====
declare i32 @getchar()
declare i32 @putchar(i32)
define i8 @main() {
  %a = alloca i8
  %b = alloca i8
  %g = call i32 @getchar()
  %g8 = trunc i32 %g to i8
  store i8 %g8, ptr %a
  %h = call i32 @getchar()
  %h8 = trunc i32 %h to i8
  store i8 %h8, ptr %b
  %c = icmp eq i8 %g8, 0
  br i1 %c, label %left, label %right
left:
  %s = call i32 @putchar(i32 76)
  br label %join
right:
  %a1 = load i8, ptr %a
  %b1 = load i8, ptr %b
  %x = srem i8 %a1, %b1
  %t = call i32 @putchar(i32 82)
  br label %join
join:
  %a2 = load i8, ptr %a
  %b2 = load i8, ptr %b
  %y = srem i8 %a2, %b2
  %a3 = load i8, ptr %a
  %b3 = load i8, ptr %b
  %z = sdiv i8 %a3, %b3
  %w = add i8 %y, %z
  ret i8 %w
}
====
declare i32 @getchar()
declare i32 @putchar(i32)
define i32 @main() {
  %i = alloca i32
  %n = alloca i32
  %g = call i32 @getchar()
  store i32 %g, ptr %n
  store i32 5, ptr %i
  br label %loop
loop:
  %n1 = load i32, ptr %n
  %i1 = load i32, ptr %i
  %x = udiv i32 %n1, %i1
  %s = call i32 @putchar(i32 %x)
  %n2 = load i32, ptr %n
  %i2 = load i32, ptr %i
  %y = udiv i32 %n2, %i2
  %c = icmp eq i32 %y, 49
  %i3 = load i32, ptr %i
  %d = sub i32 %i3, 1
  store i32 %d, ptr %i
  br i1 %c, label %out, label %loop
out:
  %n3 = load i32, ptr %n
  ret i32 %n3
}
====
declare i32 @getchar()
declare i32 @putchar(i32)
@d = global i32 7
define i32 @part(i32 %p) {
  %d1 = load i32, ptr @d
  %x = sdiv i32 %p, %d1
  %s = call i32 @putchar(i32 70)
  %d2 = load i32, ptr @d
  %y = sdiv i32 %p, %d2
  %z = add i32 %x, %y
  ret i32 %z
}
define i32 @main() {
  %g = call i32 @getchar()
  %e = sub i32 %g, 65
  %u = call i32 @part(i32 100)
  store i32 %e, ptr @d
  %v = call i32 @part(i32 100)
  %d1 = load i32, ptr @d
  %w = srem i32 100, %d1
  %d2 = load i32, ptr @d
  %x = sdiv i32 100, %d2
  %r = add i32 %w, %x
  ret i32 %r
}
====
declare i32 @getchar()
declare i32 @putchar(i32)
define i32 @main() {
  %a = alloca i32
  %b = alloca i32
  %g = call i32 @getchar()
  store i32 %g, ptr %a
  %h = call i32 @getchar()
  %e = sub i32 %h, 66
  store i32 %e, ptr %b
  br label %loop
loop:
  %a1 = load i32, ptr %a
  %c = icmp ult i32 %a1, 60
  br i1 %c, label %cold, label %warm
cold:
  %s = call i32 @putchar(i32 67)
  %a2 = load i32, ptr %a
  %b2 = load i32, ptr %b
  %x = sdiv i32 %a2, %b2
  ret i32 %x
warm:
  %a3 = load i32, ptr %a
  %b3 = load i32, ptr %b
  %y = sdiv i32 %a3, %b3
  %a4 = load i32, ptr %a
  %m = sub i32 %a4, 10
  store i32 %m, ptr %a
  %t = call i32 @putchar(i32 %y)
  br label %loop
}
";
