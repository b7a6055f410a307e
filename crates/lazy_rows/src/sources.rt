//! The modules.

/// A division in one arm of a branch and behind both.
pub fn arm<'a>() -> &'a str {
    "
declare i32 @getchar()

define i32 @main() {
entry:
  %a = alloca i32
  %b = alloca i32
  %s = alloca i32
  %g = call i32 @getchar()
  store i32 %g, ptr %a
  %h = call i32 @getchar()
  store i32 %h, ptr %b
  %g1 = load i32, ptr %a
  %c = icmp eq i32 %g1, 65
  br i1 %c, label %left, label %right
left:
  %x1 = load i32, ptr %a
  %x2 = load i32, ptr %b
  %x = sdiv i32 %x1, %x2
  store i32 %x, ptr %s
  br label %join
right:
  br label %join
join:
  %y1 = load i32, ptr %a
  %y2 = load i32, ptr %b
  %y = sdiv i32 %y1, %y2
  ret i32 %y
}
"
}

/// The same with a call behind both arms that may end the program.
pub fn barred<'a>() -> &'a str {
    "
declare i32 @getchar()
declare i32 @putchar(i32)

define i32 @main() {
entry:
  %a = alloca i32
  %b = alloca i32
  %s = alloca i32
  %g = call i32 @getchar()
  store i32 %g, ptr %a
  %h = call i32 @getchar()
  store i32 %h, ptr %b
  %g1 = load i32, ptr %a
  %c = icmp eq i32 %g1, 65
  br i1 %c, label %left, label %right
left:
  %x1 = load i32, ptr %a
  %x2 = load i32, ptr %b
  %x = sdiv i32 %x1, %x2
  store i32 %x, ptr %s
  br label %join
right:
  br label %join
join:
  %p = call i32 @putchar(i32 65)
  %y1 = load i32, ptr %a
  %y2 = load i32, ptr %b
  %y = sdiv i32 %y1, %y2
  ret i32 %y
}
"
}

/// A division twice in one block.
pub fn twice<'a>() -> &'a str {
    "
define i32 @main() {
  %a = alloca i32
  %b = alloca i32
  %a1 = load i32, ptr %a
  %b1 = load i32, ptr %b
  %x = sdiv i32 %a1, %b1
  %a2 = load i32, ptr %a
  %b2 = load i32, ptr %b
  %y = sdiv i32 %a2, %b2
  ret i32 %y
}
"
}

/// A loop with a division in an arm.
pub fn looping<'a>() -> &'a str {
    "
define i32 @main() {
entry:
  %a = alloca i32
  %b = alloca i32
  %i = alloca i32
  %t = alloca i32
  br label %head
head:
  %i1 = load i32, ptr %i
  %c = icmp ult i32 %i1, 1000
  br i1 %c, label %body, label %exit
body:
  %i2 = load i32, ptr %i
  %m = urem i32 %i2, 100
  %d = icmp ne i32 %m, 0
  br i1 %d, label %arm, label %latch
arm:
  %x1 = load i32, ptr %a
  %x2 = load i32, ptr %b
  %x = sdiv i32 %x1, %x2
  store i32 %x, ptr %t
  br label %latch
latch:
  %i3 = load i32, ptr %i
  %n = add i32 %i3, 1
  store i32 %n, ptr %i
  br label %head
exit:
  ret i32 0
}
"
}
