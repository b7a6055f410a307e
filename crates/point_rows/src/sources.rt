//! The modules.

/// A branch with an expression in one arm and behind both.
pub fn arm<'a>() -> &'a [u8] {
    b"
declare i32 @getchar()

define i32 @main() {
entry:
  %a = alloca i32
  %b = alloca i32
  %s = alloca i32
  %g = call i32 @getchar()
  store i32 %g, ptr %a
  %h = call i32 @getchar()
  store i32 %h, ptr %b
  %g1 = load i32, ptr %a
  %c = icmp eq i32 %g1, 65
  br i1 %c, label %left, label %right
left:
  %x1 = load i32, ptr %a
  %x2 = load i32, ptr %b
  %x = add i32 %x1, %x2
  store i32 %x, ptr %s
  br label %join
right:
  br label %join
join:
  %y1 = load i32, ptr %a
  %y2 = load i32, ptr %b
  %y = add i32 %y1, %y2
  ret i32 %y
}
"
}

/// A loop with an expression in an arm.
pub fn looping<'a>() -> &'a [u8] {
    b"
define i32 @main() {
entry:
  %a = alloca i32
  %b = alloca i32
  %i = alloca i32
  %t = alloca i32
  br label %head
head:
  %i1 = load i32, ptr %i
  %c = icmp ult i32 %i1, 1000
  br i1 %c, label %body, label %exit
body:
  %i2 = load i32, ptr %i
  %m = urem i32 %i2, 100
  %d = icmp ne i32 %m, 0
  br i1 %d, label %arm, label %latch
arm:
  %x1 = load i32, ptr %a
  %x2 = load i32, ptr %b
  %x = mul i32 %x1, %x2
  store i32 %x, ptr %t
  br label %latch
latch:
  %i3 = load i32, ptr %i
  %n = add i32 %i3, 1
  store i32 %n, ptr %i
  br label %head
exit:
  ret i32 0
}
"
}

/// An expression again in a cold arm.
pub fn cold<'a>() -> &'a [u8] {
    b"
define i32 @main() {
entry:
  %a = alloca i32
  %t = alloca i32
  %a1 = load i32, ptr %a
  %x = add i32 %a1, 1
  %c = icmp eq i32 %x, 9
  br i1 %c, label %cold, label %end
cold:
  %a2 = load i32, ptr %a
  %y = add i32 %a2, 1
  store i32 %y, ptr %t
  br label %end
end:
  ret i32 0
}
"
}

/// An expression in both arms.
pub fn both<'a>() -> &'a [u8] {
    b"
declare i32 @getchar()

define i32 @main() {
entry:
  %a = alloca i32
  %g = call i32 @getchar()
  store i32 %g, ptr %a
  %g1 = load i32, ptr %a
  %c = icmp slt i32 %g1, 0
  br i1 %c, label %cold, label %warm
cold:
  %a2 = load i32, ptr %a
  %y = add i32 %a2, 1
  ret i32 %y
warm:
  %a3 = load i32, ptr %a
  %z = add i32 %a3, 1
  ret i32 %z
}
"
}

/// An expression of a global, with a call of a defined function and one of an external one between.
pub fn a_global<'a>() -> &'a [u8] {
    b"
@g = global i32 5
declare i32 @getchar()
define i32 @main() {
  %1 = load i32, ptr @g
  %2 = add i32 %1, 1
  %3 = call i32 @f()
  %4 = load i32, ptr @g
  %5 = add i32 %1, 1
  %6 = add i32 %4, 1
  %7 = call i32 @getchar()
  %8 = add i32 %4, 1
  ret i32 %8
}
define i32 @f() {
  store i32 7, ptr @g
  ret i32 0
}
"
}

/// Divisions, operands in another order, a store behind a load, two slots to one block, and a block without a path.
pub fn mixed<'a>() -> &'a [u8] {
    b"
define i32 @f(i32 %p) {
entry:
  %a = alloca i32
  %a1 = load i32, ptr %a
  %x = sub i32 %a1, %p
  %y = sub i32 %p, %a1
  store i32 1, ptr %a
  %z = sub i32 %a1, %p
  %q = sdiv i32 %p, 7
  %r = sdiv i32 %p, -1
  %s = udiv i32 %p, %p
  br i1 true, label %end, label %end
lost:
  %u = add i32 %p, 1
  br label %end
end:
  unreachable
}
"
}

/// Divisions in one arm and behind both, the latter behind a call that may end the program.
pub fn barred<'a>() -> &'a [u8] {
    b"
declare i32 @getchar()
declare i32 @putchar(i32)

define i32 @main() {
entry:
  %a = alloca i32
  %b = alloca i32
  %s = alloca i32
  %g = call i32 @getchar()
  store i32 %g, ptr %a
  %h = call i32 @getchar()
  store i32 %h, ptr %b
  %g1 = load i32, ptr %a
  %c = icmp eq i32 %g1, 65
  br i1 %c, label %left, label %right
left:
  %x1 = load i32, ptr %a
  %x2 = load i32, ptr %b
  %x = sdiv i32 %x1, %x2
  store i32 %x, ptr %s
  br label %join
right:
  br label %join
join:
  %p = call i32 @putchar(i32 65)
  %y1 = load i32, ptr %a
  %y2 = load i32, ptr %b
  %y = sdiv i32 %y1, %y2
  ret i32 %y
}
"
}

/// A loop with a division in an arm.
pub fn divides<'a>() -> &'a [u8] {
    b"
define i32 @main() {
entry:
  %a = alloca i32
  %b = alloca i32
  %i = alloca i32
  %t = alloca i32
  br label %head
head:
  %i1 = load i32, ptr %i
  %c = icmp ult i32 %i1, 1000
  br i1 %c, label %body, label %exit
body:
  %i2 = load i32, ptr %i
  %m = urem i32 %i2, 100
  %d = icmp ne i32 %m, 0
  br i1 %d, label %arm, label %latch
arm:
  %x1 = load i32, ptr %a
  %x2 = load i32, ptr %b
  %x = sdiv i32 %x1, %x2
  store i32 %x, ptr %t
  br label %latch
latch:
  %i3 = load i32, ptr %i
  %n = add i32 %i3, 1
  store i32 %n, ptr %i
  br label %head
exit:
  ret i32 0
}
"
}
