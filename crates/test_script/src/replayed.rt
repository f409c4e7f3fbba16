//! Scripts with their outputs, replayed: a wrong definition, with its code, fails.
//!
//! They were made by a slow model of the definitions, written apart from this project, which draws selectors and tags at random:
//! first scripts of names and `*`, from a few names, then scripts of every kind. They were run through lol_html too: it answers
//! alike wherever its rules are those of this project (docs/DIFFERENCES.md has the differences).

/// 42 scripts of names and `*`, as `expect_texts` takes them.
pub(super) const OF_NAMES: &str = "\
    select\t3\tx\nstart\thtml\tp\nend\tP\nend\thr\n\x1f\
    start\t-\nend\t0\nend\t-\n\x1e\
    select\t0\ta  P\nstart\thtml\tP\nend\tbr\nend\ta\n\x1f\
    start\t-\nend\t-\nend\t-\n\x1e\
    \nselect\t63\th1\nstart\thtml\tdiv\nstart\thtml\tp\nstart\thtml\tbr\x1f\
    start\t-\nstart\t-\nstart\t-\n\x1e\
    select\t63\tp >a >p >p\nselect\t3\th1 > p > img\nend\th1\nstart\thtml\thr\nend\thr\n\x1f\
    end\t-\nstart\t-\nend\t-\n\x1e\
    select\t66\t* > b A  a,A> b > bR>b\nselect\t4\tbr\nstart\thtml\thr\nend\tx\nstart\thtml\tbr\n\x1f\
    start\t-\nend\t-\nstart\t4/\n\x1e\
    \nselect\t63\tp *> div *  img h1 > h1\nselect\t5632\tp> div\nstart\thtml\th1\nend\timg\nstart\thtml\tbr\n\x1f\
    start\t-\nend\t-\nstart\t-\n\x1e\
    select\t4\tbr , b *>a , b >b\nselect\t82554\tb  b >a>br\nstart\thtml\tp\nstart\thtml\thr\nstart\thtml\tB\n\x1f\
    start\t-\nstart\t-\nstart\t-\n\x1e\
    select\t0\t* >b\nselect\t31\t*, img\nselect\t50877\th1\nselect\t63\th1\nselect\t1\tb,div b\nend\tp\nstart\thtml\th1\nstart\thtml\th1\n\x1f\
    end\t-\nstart\t31,63,50877\nstart\t31,63,50877\n\x1e\
    select\t63\timg h1, b >* * > *, img> p  b> b > div >h1 > div\nselect\t33\tp\nselect\t33\tb\nend\timg\nstart\thtml\tp\nstart\thtml\tbr\n\x1f\
    end\t-\nstart\t33\nstart\t-\n\x1e\
    select\t63\tX>*  dIv>P  DIV >h1 > p,DiV  h1> Div > h1>p > x> diV\nselect\t64\tdiV>ImG> DIV\nstart\thtml\tbr\nstart\thtml\timg\nend\tx\n\x1f\
    start\t-\nstart\t-\nend\t-\n\x1e\
    select\t0\tx p\n\nselect\t31\tp\n\nend\tbr\n\nstart\thtml\tbr\n\nstart\thtml\tbr\n\nend\tb\n\nstart\thtml\thr\n\nend\thr\n\nstart\thtml\thr\n\nstart\thtml\tbr\n\x1f\
    end\t-\nstart\t-\nstart\t-\nend\t-\nstart\t-\nend\t-\nstart\t-\nstart\t-\n\x1e\
    select\t2\tA > br\n\nselect\t0\tP > diV >P a\n\nstart\thtml\thr\n\nend\tbr\n\nend\tbr\n\nstart\thtml\ta\n\nend\tp\n\nstart\thtml\tp\n\nend\tA\n\nstart\thtml\ta\n\x1f\
    start\t-\nend\t-\nend\t-\nstart\t-\nend\t-\nstart\t-\nend\t3,5\nstart\t-\n\x1e\
    select\t0\tx> a div >div  div >br >*\nselect\t64\tx\nend\tbr\nend\tbr\nend\tdiv\nstart\thtml\tbr\nend\tx\nstart\thtml\tHR\nend\tdiv\nstart\thtml\tdiv\n\x1f\
    end\t-\nend\t-\nend\t-\nstart\t-\nend\t-\nstart\t-\nend\t-\nstart\t-\n\x1e\
    select\t2\tb b\nselect\t3\tbr>br , x  x >a\nselect\t3\tbr\nstart\thtml\tb\nend\tbr\nstart\thtml\tB\nend\ta\nstart\thtml\tx\nend\tBR\nstart\thtml\tx\nend\thr\n\x1f\
    start\t-\nend\t-\nstart\t2\nend\t-\nstart\t-\nend\t-\nstart\t-\nend\t-\n\x1e\
    select\t94900\th1\nselect\t3\tp>h1\nstart\thtml\thr\nstart\thtml\th1\nend\tP\nend\thr\nstart\thtml\timg\nstart\thtml\tdiv\nstart\thtml\tb\nstart\thtml\tIMG\n\x1f\
    start\t-\nstart\t94900\nend\t-\nend\t-\nstart\t-\nstart\t-\nstart\t-\nstart\t-\n\x1e\
    select\t33\ta > a > div\nstart\thtml\thr\nstart\thtml\tdiv\nstart\thtml\tbr\nstart\thtml\tdiv\nstart\thtml\timg\nstart\thtml\tbr\nstart\thtml\tbr\nend\tHR\n\x1f\
    start\t-\nstart\t-\nstart\t-\nstart\t-\nstart\t-\nstart\t-\nstart\t-\nend\t-\n\x1e\
    select\t33\tp > a  a , a\nselect\t5108\timg  a\nselect\t0\timg>img>p  a p> a  h1, img, p> h1 > *\nstart\thtml\th1\nstart\thtml\tBR\nstart\thtml\tdiv\n\x1f\
    start\t-\nstart\t-\nstart\t-\n\x1e\
    select\t0\tB >* > DIV>B , * , *\n\nstart\thtml\tDIV\n\nstart\thtml\thr\n\nstart\thtml\tdiv\n\nend\tb\n\nstart\thtml\ta\n\nstart\thtml\tb\n\nstart\thtml\ta\n\nend\thr\x1f\
    start\t0\nstart\t0/\nstart\t0\nend\t-\nstart\t0\nstart\t0\nstart\t0\nend\t-\n\x1e\
    select\t82408\tdIv> h1>H1 >Img , A H1 , A\nstart\thtml\ta\nstart\thtml\tbr\nend\ta\nstart\thtml\timg\nstart\thtml\tp\nstart\thtml\timg\nend\thr\nstart\thtml\tHR\n\x1f\
    start\t82408\nstart\t-\nend\t0\nstart\t-\nstart\t-\nstart\t-\nend\t-\nstart\t-\n\x1e\
    select\t63\tA >img H1> *  H1>*>A, a B  X\n\nstart\thtml\tx\n\nstart\thtml\ta\n\nstart\thtml\ta\n\nstart\thtml\tb\n\nstart\thtml\tA\n\nstart\thtml\tA\n\nend\tb\n\nend\thr\n\x1f\
    start\t-\nstart\t-\nstart\t-\nstart\t-\nstart\t-\nstart\t-\nend\t3,4,5\nend\t-\n\x1e\
    select\t70609\tb *, h1> h1 p > * b>b > h1\nselect\t2\tb  p , img> img b >img >* >div > b\nselect\t32\tb\nstart\thtml\thr\nstart\thtml\tp\nstart\thtml\timg\n\x1f\
    start\t-\nstart\t-\nstart\t-\n\x1e\
    select\t0\t*>p> p,h1  p *  p  a  img > x,img h1>img >h1\nselect\t4\th1> h1\nselect\t3\tx > x > img>a > * > h1 *\nstart\thtml\tp\nstart\thtml\ta\nstart\thtml\tp\n\x1f\
    start\t-\nstart\t-\nstart\t-\n\x1e\
    select\t33\tb,br> div *>b\nselect\t33\t*  br\nselect\t32\tdiv> *\nend\tBR\nstart\thtml\tbr\nstart\thtml\tbr\nstart\thtml\tb\nstart\thtml\tbr\nend\tdiv\nstart\thtml\tb\nend\tbr\n\x1f\
    end\t-\nstart\t-\nstart\t-\nstart\t33\nstart\t33/\nend\t-\nstart\t33\nend\t-\n\x1e\
    select\t4294967296\ta\nselect\t64\tA>b > * >A>* > * > X\nselect\t8\ta  *  x *>*> a > A\nselect\t63\tA\nselect\t64\t*\nselect\t31874\ta  *>a>B\nend\tx\nstart\thtml\tb\nend\tx\n\x1f\
    bad line 1: form\n\x1e\
    select\t2425\ta\nselect\t3\tiMG>b  * > b\nselect\t33\tA>*> H1 > a>*>* *\nend\thr\nstart\thtml\thr\nstart\thtml\tb\nend\tp\nstart\thtml\timg\nend\tA\nstart\thtml\th1\nstart\thtml\thr\n\x1f\
    end\t-\nstart\t-\nstart\t-\nend\t-\nstart\t-\nend\t-\nstart\t-\nstart\t-\n\x1e\
    select\t31\t*\nselect\t32\ta\nselect\t98696\tb > img>b  x> img > img  h1,b  img,x > h1 > a\nselect\t44\tb >b, img> *\nselect\t4\tb >*\nstart\thtml\tX\nstart\thtml\th1\nstart\thtml\tIMG\n\x1f\
    start\t31\nstart\t31\nstart\t31/\n\x1e\
    select\t64\t*  *>img, a, * h1 b >img  *>b x\nselect\t1\ta\nselect\t4\ta\nend\tbr\nselect\t1\nstart\thtml\tbr\nstart\thtml\thr\nstart\thtml\tx\nend\th1\nstart\thtml\timg\nend\tb\nstart\thtml\thr\n\x1f\
    bad line 5: form\n\x1e\
    \nselect\t3\tp > * >*>x\n\nselect\t3\tdiv\n\nselect\t0\t*>div>x,*,p * > p>p *  *>*\n\nselect\t64\t*>div , * , *  div> p\n\nselect\t114\tp>div,div\n\nend\thr\n\nstart\thtml\thr\n\nstart\thtml\thr\n\x1f\
    end\t-\nstart\t0/,64/\nstart\t0/,64/\n\x1e\
    select\t1\tb\nend\tIMG\nend\tP\nstart\thtml\tdiv\nend\tH1\nend\tb\nend\thr\nstart\thtml\thr\nstart\thtml\tdiv\nstart\thtml\th1\nend\tp\nend\th1\nend\tDIV\nstart\thtml\tdiv\nstart\thtml\tdiv\nstart\thtml\thr\x1f\
    end\t-\nend\t-\nstart\t-\nend\t-\nend\t-\nend\t-\nstart\t-\nstart\t-\nstart\t-\nend\t-\nend\t8\nend\t7\nstart\t-\nstart\t-\nstart\t-\n\x1e\
    select\t2\tdiV\nselect\t11284\tx > *>* *>x > x> h1\nselect\t33\tb > X  X\nselect\t32\tB>x, H1\nselect\t13\tX>b\nselect\t64\tX\nselect\t31\th1\nselect\t3\t*> x> *\nend\tbr\nstart\thtml\tx\nstart\thtml\timg\n\x1f\
    end\t-\nstart\t64\nstart\t-\n\x1e\
    select\t58\tx,b> b x\n\nselect\t0\tx\n\nselect\t33\t*\n\nselect\t1\tp> x, *\n\nselect\t31\t*, p p\n\nstart\thtml\tx\n\nstart\thtml\tx\n\nend\tbr\n\nend\thr\n\nstart\thtml\thr\n\nstart\thtml\thr\n\nend\tx\n\nstart\thtml\tb\n\x1f\
    start\t0,1,31,33,58\nstart\t0,1,31,33,58\nend\t-\nend\t-\nstart\t1/,31/,33/\nstart\t1/,31/,33/\nend\t1\nstart\t1,31,33\n\x1e\
    select\t66\ta > x a , * , a  div > img> *\nselect\t1\timg a\nselect\t2\tx  div , x >img >a\nselect\t33\tx> h1  x >*>img >div >h1, *>img, img >img\nselect\t3\ta> img> a h1\nend\tbr\nstart\thtml\th1\nend\ta\nend\n\x1f\
    bad line 9: form\n\x1e\
    select\t4\tp > DiV>* >P\nselect\t4\t*\nstart\thtml\tbr\nend\tx\nstart\thtml\tdiv\nend\tp\nstart\thtml\tdiv\nstart\thtml\tHR\nend\tbr\nend\thr\nend\tdiv\nstart\thtml\tbr\nend\tDIV\nstart\thtml\thr\nstart\thtml\thr\nend\tbr\nend\tbr\n\x1f\
    start\t4/\nend\t-\nstart\t4\nend\t-\nstart\t4\nstart\t4/\nend\t-\nend\t-\nend\t4\nstart\t4/\nend\t2\nstart\t4/\nstart\t4/\nend\t-\nend\t-\n\x1e\
    select\t1\ta\nselect\t198\t*\nselect\t1\tb, b> img> x>b  a >* >img, a  a\nend\nselect\t64\ta\nselect\t63\timg  *>h1\nstart\thtml\th1\nstart\thtml\ta\nend\timg\nstart\thtml\timg\nstart\thtml\tbr\nstart\thtml\thr\nend\tbr\nend\tbr\n\x1f\
    bad line 4: form\n\x1e\
    select\t3\tp>p> x p,p>a >a> x> x >x *\nend\ta\nstart\thtml\thr\nend\tbr\nstart\thtml\tP\nstart\thtml\tp\nstart\thtml\tbr\nstart\thtml\ta\nend\tp\nstart\thtml\ta\nstart\thtml\tp\nend\tbr\nselect\t4294967296\ta\nend\tbr\nstart\thtml\tHR\nstart\thtml\tbr\nend\thr\n\x1f\
    bad line 13: form\n\x1e\
    select\t64\t* *\nselect\t0\tp >B\nselect\t1\t* >B h1>h1, ImG>H1  * >h1 >IMg * > *\nfoo\nselect\t64\tIMG Div >p> B\nselect\t64\tP\nstart\thtml\tbr\nstart\thtml\tIMG\nstart\thtml\thr\nstart\thtml\th1\nstart\thtml\tHR\nend\tp\nstart\thtml\tdiv\nstart\thtml\tbr\n\x1f\
    bad line 4: form\n\x1e\
    select\t0\tx> *  a> b  a > a  b\nfoo\nselect\t33\ta, x *\nselect\t82485\t*>br>* , br , a\nselect\t63\tbr *\nselect\t1\tb a , b>br b , a  x a>x b  x >*\nselect\t2\t*\nselect\t64\tx> b  *\nselect\t2\ta>x>br,b,a\nstart\thtml\tbr\nstart\thtml\tbr\nstart\thtml\tb\n\x1f\
    bad line 2: form\n\x1e\
    select\t63\ta> x\nselect\t4\tbr , div > div , br  br  div > x *>br >br\nstart\thtml\tx\nend\tbr\nselect\t4294967296\ta\nstart\thtml\tx\nstart\thtml\thr\nstart\thtml\tbr\nend\tBR\nstart\thtml\tbr\nend\tdiv\nstart\thtml\tHR\nstart\thtml\tbr\nend\tbr\nstart\thtml\tx\nend\tbr\nend\tbr\nend\thr\n\x1f\
    bad line 5: form\n\x1e\
    select\t3\tA  *\nstart\thtml\tb\nend\tp\nstart\thtml\tP\nstart\thtml\tp\nend\tp\nstart\thtml\ta\nstart\thtml\tA\nstart\thtml\ta\nstart\thtml\ta\nstart\thtml\tP\nend\tp\nend\tbr\nstart\thtml\ta\nend\ta\nend\tp\nend\thr\nstart\thtml\tB\nend\tp\nstart\thtml\ta\nstart\thtml\tp\nstart\thtml\tb\nstart\thtml\thr\nend\ta\nstart\thtml\tbr\nstart\thtml\tbr\nend\tbr\nstart\thtml\ta\nend\tb\nend\thr\nend\ta\nend\tb\nstart\thtml\tp\nstart\thtml\tbr\nstart\thtml\tb\nstart\thtml\ta\nstart\thtml\tb\nend\ta\nend\tp\nend\tb\nstart\thtml\tbr\n\x1f\
    start\t-\nend\t-\nstart\t-\nstart\t-\nend\t3\nstart\t-\nstart\t3\nstart\t3\nstart\t3\nstart\t3\nend\t9\nend\t-\nstart\t3\nend\t12\nend\t2,5,6,7,8\nend\t-\nstart\t-\nend\t-\nstart\t-\nstart\t3\nstart\t3\nstart\t3/\nend\t18,19,20\nstart\t-\nstart\t-\nend\t-\nstart\t-\nend\t16,26\nend\t-\nend\t-\nend\t0\nstart\t-\nstart\t-\nstart\t-\nstart\t-\nstart\t3\nend\t34,35\nend\t31,33\nend\t-\nstart\t-\n\x1e\
    select\t0\tb p> h1>*  div >img >div\nselect\t4\tb p>p,img,img > div> h1\nselect\t32\tb\nselect\t1\tb p, img p, * b\nselect\t32\tp > div>h1  div, *, *> img > b\nselect\t0\tdiv  * img, * > img> h1\nselect\t3\tdiv>img  * > img > p> img>img,b> img\nselect\t32\tdiv > p>b  div *>div > p\nstart\thtml\tp\nstart\thtml\tb\nend\tp\nend\tdiv\nstart\thtml\th1\nend\timg\nstart\thtml\tbr\nstart\thtml\tdiv\nend\tdiv\nstart\thtml\tp\nend\th1\nend\tbr\nstart\thtml\tdiv\nstart\thtml\thr\nstart\thtml\tb\n\x1f\
    start\t32\nstart\t1,32\nend\t0,1\nend\t-\nstart\t32\nend\t-\nstart\t32/\nstart\t32\nend\t7\nstart\t32\nend\t4,9\nend\t-\nstart\t32\nstart\t32/\nstart\t1,32\n\x1e\
    select\t1\timg >b  p\nstart\thtml\tb\nend\timg\nstart\thtml\tp\nstart\thtml\tp\nend\th1\nend\tbr\nend\thr\nstart\thtml\tbr\nstart\thtml\ta\nstart\thtml\timg\nstart\thtml\thr\nstart\thtml\tbr\nend\tp\nstart\thtml\tb\nstart\thtml\tb\nend\thr\nstart\thtml\tbr\nend\thr\nstart\thtml\ta\nstart\thtml\tp\nend\tB\nend\thr\nend\tH1\nend\tb\nstart\thtml\ta\nend\tbr\nend\timg\nstart\thtml\tA\nstart\thtml\thr\nstart\thtml\thr\nstart\thtml\tb\nstart\thtml\tHR\nstart\thtml\tb\nend\th1\nend\tHR\nstart\thtml\tH1\nend\tBR\nstart\thtml\tb\nend\ta\nend\tb\n\x1f\
    start\t-\nend\t-\nstart\t-\nstart\t-\nend\t-\nend\t-\nend\t-\nstart\t-\nstart\t-\nstart\t-\nstart\t-\nstart\t-\nend\t3,8\nstart\t-\nstart\t-\nend\t-\nstart\t-\nend\t-\nstart\t-\nstart\t-\nend\t14,18,19\nend\t-\nend\t-\nend\t13\nstart\t-\nend\t-\nend\t-\nstart\t-\nstart\t-\nstart\t-\nstart\t-\nstart\t-\nstart\t-\nend\t-\nend\t-\nstart\t-\nend\t-\nstart\t-\nend\t27,30,32,35,37\nend\t0,2,24\n\x1e\
    select\t33\timg>a >x x\nend\ta\nstart\thtml\tA\nend\tx\nstart\thtml\th1\nstart\thtml\th1\nstart\thtml\tHR\nstart\thtml\tb\nstart\thtml\th1\nstart\thtml\ta\nstart\thtml\tb\nend\th1\nend\tX\nend\timg\nstart\thtml\tx\nend\tBR\nend\tx\nstart\thtml\timg\nend\ta\nstart\thtml\th1\nstart\thtml\tb\nstart\thtml\th1\nend\timg\nend\tA\nend\tbr\nend\tbr\nend\thr\nstart\thtml\th1\nstart\thtml\tbr\nstart\thtml\tbr\nend\tb\nend\tbr\nend\th1\nstart\thtml\tx\nend\timg\nend\thr\nstart\thtml\tb\nstart\thtml\tX\nstart\thtml\tbr\nstart\thtml\tx\nstart\thtml\tb\n\x1f\
    end\t-\nstart\t-\nend\t-\nstart\t-\nstart\t-\nstart\t-\nstart\t-\nstart\t-\nstart\t-\nstart\t-\nend\t7,8,9\nend\t-\nend\t-\nstart\t-\nend\t-\nend\t13\nstart\t-\nend\t1,3,4,6\nstart\t-\nstart\t-\nstart\t-\nend\t-\nend\t-\nend\t-\nend\t-\nend\t-\nstart\t-\nstart\t-\nstart\t-\nend\t19,20,26\nend\t-\nend\t18\nstart\t-\nend\t-\nend\t-\nstart\t-\nstart\t-\nstart\t-\nstart\t-\nstart\t-\n";

/// 42 scripts of any kind, as `expect_texts` takes them.
pub(super) const OF_EVERY_KIND: &str = "\
    tries\n\nesi\n\nselect\t2\ta[/**/|a~=A\r\n\nend\thr\n\nend\tX\x1f\
    end\t-\nend\t-\n\x1e\
    tries\nselect\t4\tp esi\\:include\nstart\tmathml/\ta-b\nstart\thtml\tx\n\x1f\
    start\t-\tasked\ttries 1 0\nstart\t-\ttries 1 0\n\x1e\
    tries\nselect\t90\ta[|A\r*=\"a-b\"\rs/**/]\nstart\tmathml\thr\nstart\tmathml\tb\n\x1f\
    start\t-\tasked\ttries 1 0\nstart\t-\tasked\ttries 1 0\n\x1e\
    select\t63\t\\h\\0037  /* */\nselect\t3\t/* */ a-\\0062\t\nstart\tsvg\tA\tX=A-B\nstart\tsvg/\tp\nstart\tsvg\tb\n\x1f\
    start\t-\tasked\nstart\t-\tasked\nstart\t-\tasked\n\x1e\
    select\t3\t* \nstart\thtml\tx\ta=AB\tid=a b\tb=a=b\ndrop\thtml\tx\tx=A-b\nstart\thtml\tdiv\tclass=a-\tclass=\nend\tp\nend\tdiv\n\x1f\
    start\t3\nstart\t3\nstart\t3\nend\t-\nend\t2\n\x1e\
    tries\nselect\t33\t/**/\\000062\t:nOt(/*x*/ [ \\0063\tla\\000073s='a-'/* */], a\u{c},/**/b)\nselect\t33\t:nth-child(odd\nend\ta\ndrop\thtml\ta\n\x1f\
    end\t-\nstart\t33\ttries 2 0\n\x1e\
    tries\nselect\t31\ta[\r|a\t/**/ \nstart\tmathml/\tdiv\ta=a-b\nend\tDIV\nstart\thtml\tx\nend\tdiv\nend\tdiv\n\x1f\
    start\t-\tasked\ttries 1 0\nend\t-\nstart\t-\ttries 1 0\nend\t-\nend\t-\n\x1e\
    tries\n\nselect\t0\t#adivp.a \n\nstart\thtml\tX\n\nstart\thtml\tx\n\ndrop\thtml\tb\n\nend\tx\n\nend\tdiv\n\x1f\
    start\t-\tasked\ttries 1 1\nstart\t-\tasked\ttries 1 1\ndropped\nend\t1\nend\t-\n\x1e\
    tries\nselect\t32\ta[\\61 \r$=\"a\\\rb\"s/**/]\nstart\thtml\tp\nend\ta-b\nstart\thtml\tb\nstart\thtml\tdiv\nend\tdiv\n\x1f\
    start\t-\ttries 1 0\nend\t-\nstart\t-\ttries 1 0\nstart\t-\ttries 1 0\nend\t3\n\x1e\
    select\t0\t-a/*%\\(\"a*|a|b)\nstart\thtml\ta\nstart\tmathml\tx\nstart\tmathml\tbr\nstart\tsvg/\tbr\nstart\tmathml\th1\n\x1f\
    start\t-\nstart\t-\tasked\nstart\t-\tasked\nstart\t-\tasked\nstart\t-\tasked\n\x1e\
    esi\nselect\t7719\t\\0031 a\nselect\t32\t[ \\61 ^=\r\"\"\rs\r]\nstart\thtml\tp\tx=b\ttype=x\nend\ta\nend\tx\nstart\thtml\tdiv\ta=-\ndrop\thtml\tp\n\x1f\
    start\t-\tasked\nend\t-\nend\t-\nstart\t-\tasked\ndropped\n\x1e\
    tries\nselect\t3\t pn\nstart\tsvg\tp\nstart\thtml\tdiv\nstart\thtml\thr\nstart\thtml\tp\nstart\thtml\tinput\n\x1f\
    start\t-\tasked\ttries 1 0\nstart\t-\ttries 1 0\nstart\t-\ttries 1 0\nstart\t-\ttries 1 0\nstart\t-\ttries 1 0\n\x1e\
    tries\nlimit\t511\nselect\t64\t:first-child\nselect\t64\tTablecONTENts\nstart\thtml\tb\nstart\thtml\tb\nstart\thtml\tp\nstart\thtml\tp\nstart\thtml\tinput\nstart\thtml\tp\nstart\thtml\tdiv\nstart\thtml\timg\ndrop\thtml\tx\nstart\thtml\ta\n\x1f\
    refused limit\n\x1e\
    tries\nselect\t0\t:nth-child(\t/**/ n-2147483648)\nstart\thtml\tb\nstart\thtml\tbr\nstart\thtml\tinput\nstart\thtml\tp\nstart\tmathml\tbr\n\x1f\
    start\t0\ttries 1 0\nstart\t0/\ttries 1 0\nstart\t0/\ttries 1 0\nstart\t0\ttries 1 0\nstart\t0\tasked\ttries 1 0\n\x1e\
    limit\t1023\nselect\t2\tesi\\003a comment\nselect\t4\t*\nstart\thtml\tx\nstart\thtml\tp\nstart\thtml\tb\nstart\thtml\tb\nend\tp\nstart\thtml\ta\nstart\thtml\tdiv\nstart\thtml/\tp\nstart\thtml\ta\nstart\thtml\tp\n\x1f\
    start\t4\nstart\t4\nstart\t4\nstart\t4\nend\t1,2,3\nstart\t4\nstart\t4\nstart\t4\nstart\t4\nstart\t4\n\x1e\
    tries\n\nselect\t31\tsPAN ,* \n\nselect\t1\t\\000031A:nth-of-type(-n) [type]\n\nselect\t64\tH1 *|*\n\nselect\t4\t:nth-of-type(-5n+ 4) img :nth-of-type(odd):FIrst-oF-typE\n\nselect\t33\tBR\n\nstart\thtml/\tp\n\ndrop\thtml\tb\n\nstart\thtml\ta\x1f\
    start\t31\ttries 6 0\nstart\t31\ttries 6 0\nstart\t31\ttries 6 0\n\x1e\
    tries\nselect\t32\ta ,*,*\nselect\t2\t /**/:not(:where(a,g)) ,b:not(div) \nselect\t63\tdiv:where(span), div,div\nselect\t3\t*:not( img)\nselect\t64\tesi\\003a\tinclude\ndrop\thtml\ta\nstart\thtml\tH1\ndrop\thtml\tesi:include\n\x1f\
    start\t3,32\ttries 8 0\nstart\t2,3,32\ttries 8 0\nstart\t2,3,32,64\ttries 8 0\n\x1e\
    select\t2\tb\nselect\t70225\tdiv \nselect\t140\tdiv, br,x\nselect\t33\t* \nselect\t63\t P\nstart\thtml\tp\tclass=ab\tid\nstart\thtml\tdiv\nstart\thtml\tesi:include\nend\tp\nstart\thtml\tdiv\nstart\thtml\ta\nstart\thtml\tdiv\nstart\thtml/\ta-b\tb=xab\x1f\
    start\t33,63\nstart\t33,140,70225\nstart\t33\nend\t0,1,2\nstart\t33,140,70225\nstart\t33\nstart\t33,140,70225\nstart\t33\n\x1e\
    esi\nselect\t4\tB P:NTH-cHIld(-2n\nselect\t2\t:nth-of-type( -3)>a#b #A:noT(Div)\nselect\t2\t p:not(a#x )[|noresize][CLass]\nselect\t64\t* #a#a\nselect\t2\t*:nTh-ChILd(+5n- /* a > b */ 0)[|compact]:nTH-CHIlD(n +1) a.a-b\nend\tdiv\nend\timg\nstart\thtml\tA\nend\tdiv\nstart\thtml\tB\ta=A-B\nstart\thtml/\tinput\nend\tb\nend\tb\x1f\
    end\t-\nend\t-\nstart\t-\nend\t-\nstart\t-\tasked\nstart\t-\tasked\nend\t4\nend\t-\n\x1e\
    tries\nselect\t0\th1\nselect\t33\tb,\\000031\ta, d\\69\tv\nselect\t32\tinput,b:not(p, \\span,\\62 )\nselect\t63\tesi\\003a i\\ncl\\000075d\\000065 :nth-child( /* a > b */ odd\nselect\t4\tx\nselect\t3\t\u{c}hr,a,\\s\\70 a\\006e\t \nselect\t32\th\\0031\t,d\\0069\t\\0076\t\nselect\t64\t:not(a\\-b:not( p,es\\i\\00003a\\63 o\\mm\\65 nt))\nstart\thtml\thr\nstart\thtml\tesi:comment\nend\tinput\n\x1f\
    start\t3/,64/\ttries 12 0\nstart\t64\ttries 12 0\nend\t-\n\x1e\
    tries\n\nselect\t0\t* * * > [/*a*/lan\\67 ='-'] [/*a*/lan\\67 ='-']\n\nselect\t1\t* > *\n\nselect\t2\t[/*a*/lan\\67 ='-'] [/*a*/lan\\67 ='-']\n\nselect\t3\t* > *\n\nstart\thtml/\ta\n\nstart\thtml\tinput\n\nstart\thtml\tinput\n\nend\thr\n\nend\tb\n\nstart\thtml\tx\n\nstart\thtml\tx\n\nend\thr\n\nend\thr\n\nstart\thtml\timg\n\x1f\
    start\t-\tasked\ttries 2 1\nstart\t1/,3/\tasked\ttries 4 1\nstart\t1/,3/\tasked\ttries 4 1\nend\t-\nend\t-\nstart\t1,3\tasked\ttries 4 1\nstart\t1,3\tasked\ttries 5 1\nend\t-\nend\t-\nstart\t1/,3/\tasked\ttries 6 2\n\x1e\
    tries\n\nselect\t3\t:is(div:nth-of-type(1),p,img:nth-child(2n-4):NtH-OF-tYPE(+7)):nth-child( 3N-2 )\n\nselect\t1\t InpUT\n\nselect\t2\tdIv:first-of-type\n\nselect\t1\tdiv\n\nselect\t33\tb\n\nselect\t91059\tdiv:where(:is(:first-of-type:WHerE(a:firSt-of-tyPE) ,a:nth-child(+1n ):where(B:nth-child(-3n+2)):nth-child(1)))\n\nselect\t0\tDiv:nTh-CHiLD(n -4 )\n\nselect\t33\teSi\\:INcluDe\n\nstart\thtml\tp\n\nstart\thtml\ta\n\nstart\thtml\tp\tclass= a\n\x1f\
    start\t3\ttries 8 0\nstart\t-\ttries 8 0\nstart\t3\ttries 8 0\n\x1e\
    tries\nselect\t0\ta\nselect\t1\ta a > a\nselect\t2\t* b\nselect\t3\t* > a > * > b > b\nselect\t4\t* > b *\nselect\t5\ta > a > a:first-of-type > *\nselect\t6\ta:first-of-type *\nselect\t7\t* b\nstart\thtml\tx\nstart\thtml\tx\nstart\thtml\ta\nstart\thtml\tdiv\ta=A\nend\tx\nstart\thtml\tB\nstart\thtml/\tb\nstart\thtml\tb\nstart\thtml\tdiv\nstart\thtml\tb\x1f\
    start\t-\ttries 3 0\nstart\t-\ttries 6 0\nstart\t0\ttries 6 0\nstart\t6\ttries 10 0\nend\t1,2,3\nstart\t2,7\ttries 6 0\nstart\t2,4,7\ttries 7 0\nstart\t2,4,7\ttries 7 0\nstart\t4\ttries 7 0\nstart\t2,4,7\ttries 7 0\n\x1e\
    tries\nselect\t0\tx:firSt-ChiLD x:firSt-ChiLD\nselect\t1\tx:firSt-ChiLD > :FIrst-of-Type\nselect\t2\t:FIrst-of-Type > x:firSt-ChiLD > :FIrst-of-Type > x:firSt-ChiLD\nselect\t3\t:FIrst-of-Type\nstart\thtml\tX\nstart\thtml\tp\nend\tIMG\nstart\thtml\tdiv\nstart\thtml/\tDIV\nstart\thtml\ttablecontents\nstart\thtml\ta\nstart\thtml\tbr\nstart\thtml\tx\nstart\thtml\tESI:COMMENT\n\x1f\
    start\t3\ttries 2 0\nstart\t1,3\ttries 5 0\nend\t-\nstart\t3\ttries 4 0\nstart\t3\ttries 4 0\nstart\t3\ttries 4 0\nstart\t3\ttries 4 0\nstart\t3/\ttries 4 0\nstart\t3\ttries 4 0\nstart\t3\ttries 4 0\n\x1e\
    esi\nselect\t0\ta:where(es\\0069\t\\:in\\0063 \\006c\tu\\000064e,\\0070\t:where(*, g,\r\tx) ,x:not(a)) x\nstart\thtml\tp\nend\tesi:comment\nend\thr\nstart\tmathml\timg\tb=a\nstart\thtml\tb\tid=b a\nstart\thtml\tdiv\nend\timg\nend\thr\ndrop\thtml\tinput\tx\nstart\thtml\ta\tb=AB\tlang=A-b\ndrop\thtml\tbr\nend\tESI:include\nstart\tsvg\tESI:include\ta=a=b\nend\ta\nend\ta\nend\tp\nend\thr\nend\tb\ndrop\thtml\tbr\nend\tbr\n\x1f\
    start\t-\nend\t-\nend\t-\nstart\t-\tasked\nstart\t-\nstart\t-\nend\t3,4,5\nend\t-\nstart\t-\nstart\t-\nstart\t-\nend\t-\nstart\t-\tasked\nend\t9,12\nend\t-\nend\t0\nend\t-\nend\t-\nstart\t-\nend\t-\n\x1e\
    tries\nlimit\t513\nselect\t2\tp.a-b\nselect\t33\t[b='b']\nstart\thtml\ta\nstart\thtml\ta\tx=b a\nstart\thtml\tx\nstart\thtml\tx\nstart\thtml\tdiv\ndrop\thtml\tdiv\nstart\thtml\tp\nstart\thtml/\tx\nstart\thtml/\tdiv\nstart\thtml\tb\ndrop\thtml\tp\nstart\thtml\tb\nstart\thtml\tp\nstart\thtml\tb\nstart\thtml\tp\ndrop\tsvg\tdiv\nstart\thtml\tx\nstart\thtml\tx\ndrop\thtml\tx\ndrop\thtml\tb\n\x1f\
    start\t-\tasked\ttries 2 1\nstart\t-\tasked\ttries 2 1\nstart\t-\tasked\ttries 2 1\nstart\t-\tasked\ttries 2 1\nstart\t-\tasked\ttries 2 1\ndropped\nstart\t-\tasked\ttries 2 2\nstart\t-\tasked\ttries 2 1\nstart\t-\tasked\ttries 2 1\nrefused limit\n\x1e\
    esi\ntries\nend\tinput\nstart\tsvg/\timg\nstart\thtml\tp\nstart\tsvg\tp\nend\tesi:include\nend\tbr\nend\tp\nend\tdiv\nend\tESI:include\nend\tESI:include\nstart\tsvg/\tx\nstart\thtml\tbr\nstart\tsvg\tesi:include\nend\tinput\nend\tesi:include\nstart\thtml\tESI:include\nstart\tsvg/\tb\nend\tx\nend\thr\nstart\tmathml\tx\n\x1f\
    end\t-\nstart\t-\tasked\ttries 0 0\nstart\t-\ttries 0 0\nstart\t-\tasked\ttries 0 0\nend\t-\nend\t-\nend\t3\nend\t-\nend\t-\nend\t-\nstart\t-\tasked\ttries 0 0\nstart\t-\ttries 0 0\nstart\t-\tasked\ttries 0 0\nend\t-\nend\t12\nstart\t-\ttries 0 0\nstart\t-\tasked\ttries 0 0\nend\t-\nend\t-\nstart\t-\tasked\ttries 0 0\n\x1e\
    tries\n\nselect\t0\t:nth-of-type(-2n/**/)\n\nselect\t1\tesi\\:comment\n\nstart\thtml\tp\n\nstart\tsvg\tx\n\nend\tp\n\nend\tbr\n\nend\tx\n\nend\tp\n\nend\tp\n\nend\tp\n\nstart\thtml\tx\n\nend\tbr\n\nstart\tmathml\tbr\n\nstart\tsvg\tbr\n\nstart\tmathml/\tx\n\nstart\tmathml/\tp\n\nstart\thtml\tbr\n\nend\tp\n\nend\tbr\n\nstart\thtml\tbr\n\nstart\thtml\tbr\n\nend\tp\n\x1f\
    start\t-\ttries 2 0\nstart\t-\tasked\ttries 2 0\nend\t0,1\nend\t-\nend\t-\nend\t-\nend\t-\nend\t-\nstart\t-\ttries 2 0\nend\t-\nstart\t-\tasked\ttries 2 0\nstart\t-\tasked\ttries 2 0\nstart\t-\tasked\ttries 2 0\nstart\t-\tasked\ttries 2 0\nstart\t-\ttries 2 0\nend\t-\nend\t11\nstart\t-\ttries 2 0\nstart\t-\ttries 2 0\nend\t-\n\x1e\
    tries\nselect\t0\t\\61 :nth-of-type( 1n-3):nth-of-type(0n) input:nth-child(3)\nselect\t1\t:nth-of-type(n+1 ) :nth-child(even )\nend\tdiv\nstart\thtml\tp\nstart\thtml\tp\nend\tbr\nend\tbr\nend\tdiv\nstart\thtml\tDIV\nend\tbr\nstart\thtml\tbr\nend\tbr\nstart\thtml\tp\nend\tbr\nend\tbr\nstart\thtml\tbr\nend\tp\nstart\thtml\tDIV\nend\tbr\nstart\thtml\tdiv\nend\tp\nstart\thtml\tdiv\n\x1f\
    end\t-\nstart\t-\ttries 2 0\nstart\t-\ttries 3 0\nend\t-\nend\t-\nend\t-\nstart\t-\ttries 3 0\nend\t-\nstart\t-\ttries 3 0\nend\t-\nstart\t1\ttries 3 0\nend\t-\nend\t-\nstart\t-\ttries 3 0\nend\t10\nstart\t-\ttries 3 0\nend\t-\nstart\t-\ttries 3 0\nend\t2,6,15,17\nstart\t1\ttries 3 0\n\x1e\
    tries\nlimit\t1025\nselect\t3\t*\nselect\t3\tesi\\003a\tcomment\nend\thr\nstart\thtml\tb\nend\thr\nstart\thtml\ta\nend\tbr\nstart\thtml\tb\nstart\thtml\tinput\nstart\thtml\tdiv\nstart\thtml\tb\nstart\thtml/\timg\nstart\thtml\tb\nstart\thtml\ta\nstart\thtml\timg\nend\ta\nend\tbr\nstart\thtml\thr\nend\tINPUT\nstart\thtml\thr\nstart\thtml\tbr\nstart\thtml\tbr\n\x1f\
    end\t-\nstart\t3\ttries 2 0\nend\t-\nstart\t3\ttries 2 0\nend\t-\nstart\t3\ttries 2 0\nstart\t3/\ttries 2 0\nstart\t3\ttries 2 0\nstart\t3\ttries 2 0\nstart\t3/\ttries 2 0\nstart\t3\ttries 2 0\nstart\t3\ttries 2 0\nstart\t3/\ttries 2 0\nend\t11\nend\t-\nstart\t3/\ttries 2 0\nend\t-\nstart\t3/\ttries 2 0\nstart\t3/\ttries 2 0\nstart\t3/\ttries 2 0\n\x1e\
    tries\nesi\nselect\t4\tes\\i\\003a \\69 nc\\6c\t\\ud\\65  :nth-of-type(1n)>\u{c}p *[x~=\"b\"  i] [\\0074\type^= \"a-\"].\\0078 [l\\0061 ng*= ' '\ri],\\68 7>.\\61\t\nselect\t59192\t:nth-of-type(+2n+1),x.\\000041 [ lan\\g]\nend\timg\nend\tp\ndrop\thtml\tx\nend\tp\nstart\thtml\tp\nstart\thtml\timg\ndrop\thtml\tb\nstart\thtml\ta\nstart\thtml\tdiv\nend\timg\nstart\thtml\ta\nstart\thtml\tb\ndrop\thtml\tx\tx=b a\ndrop\thtml\tdiv\ndrop\thtml/\tx\tb\n\x1f\
    end\t-\nend\t-\ndropped\nend\t-\nstart\t59192\ttries 4 0\nstart\t59192/\ttries 4 0\nstart\t59192\ttries 4 0\nstart\t59192\ttries 4 0\nstart\t59192\ttries 4 0\nend\t-\nstart\t59192\ttries 4 0\nstart\t59192\ttries 4 0\ndropped\nstart\t59192\ttries 4 0\ndropped\n\x1e\
    esi\ntries\nstart\tmathml\tx\tclass=a-b\nstart\tsvg\tesi:include\nstart\tmathml\tESI:include\tvlink\nend\tinput\nstart\tmathml\tinput\nend\tp\nend\thr\nend\tinput\nstart\tsvg\tesi:comment\nstart\thtml\ta\nstart\thtml\tp\nend\tesi:include\nend\tESI:include\nend\tinput\nend\tesi:include\nend\thr\nstart\tsvg/\ta\nend\tESI:include\nstart\tmathml\tinput\nstart\tmathml\tb\n\x1f\
    start\t-\tasked\ttries 0 0\nstart\t-\tasked\ttries 0 0\nstart\t-\tasked\ttries 0 0\nend\t-\nstart\t-\tasked\ttries 0 0\nend\t-\nend\t-\nend\t4\nstart\t-\tasked\ttries 0 0\nstart\t-\ttries 0 0\nstart\t-\ttries 0 0\nend\t2,8,9,10\nend\t1\nend\t-\nend\t-\nend\t-\nstart\t-\tasked\ttries 0 0\nend\t-\nstart\t-\tasked\ttries 0 0\nstart\t-\tasked\ttries 0 0\n\x1e\
    limit\t2047\nselect\t2\ta-b a\nselect\t64\tdiv>span:where(x/*x*/ ,g#a-b) div :first-of-type\nstart\thtml\th7\nstart\thtml/\tb\nstart\thtml\tinput\nstart\thtml\tspan\tlang=a-b\nstart\thtml\tspan\nstart\thtml\tinput\nstart\thtml\tinput\nstart\thtml\tb\tx=b a\tx=a=b\tclass=ab\nstart\thtml\tb\nstart\thtml\tesi:comment\ta=a b\tclass=x\nstart\thtml\tp\nstart\thtml\tx\nstart\thtml\tli\nstart\thtml\tdiv\nstart\thtml\tx\nstart\thtml\ta\nstart\thtml\tp\tlang=A-b\nstart\thtml\tp\tid=AB\nstart\thtml\tesi:include\nstart\thtml\tp\n\x1f\
    start\t-\nstart\t-\nstart\t-\nstart\t-\nstart\t-\nstart\t-\nstart\t-\nstart\t-\nstart\t-\nstart\t-\nstart\t-\nstart\t-\nstart\t-\nstart\t-\nstart\t-\nstart\t-\nstart\t-\nstart\t-\nstart\t-\nrefused limit\n\x1e\
    esi\ntries\ndrop\thtml\ta\ndrop\tmathml\tesi:comment\ndrop\tsvg\tb\nstart\tmathml\tesi:comment\nend\tp\nstart\thtml\tesi:comment\tx=a-\nstart\tmathml/\tx\nend\tb\ndrop\thtml\timg\ndrop\tsvg\timg\nstart\tsvg\ta\nend\tp\nstart\tsvg\ta\nstart\tsvg\ta\tlang\ndrop\thtml\tdiv\nend\tb\nstart\tmathml\thr\nstart\thtml\tdiv\ta=a-\ndrop\tsvg\tesi:comment\nstart\tsvg\tdiv\tlang\n\x1f\
    start\t-\ttries 0 0\ndropped\ndropped\nstart\t-\tasked\ttries 0 0\nend\t-\nstart\t-\ttries 0 0\nstart\t-\tasked\ttries 0 0\nend\t-\nstart\t-\ttries 0 0\ndropped\nstart\t-\tasked\ttries 0 0\nend\t-\nstart\t-\tasked\ttries 0 0\nstart\t-\tasked\ttries 0 0\nstart\t-\ttries 0 0\nend\t-\nstart\t-\tasked\ttries 0 0\nstart\t-\ttries 0 0\ndropped\nstart\t-\tasked\ttries 0 0\n\x1e\
    esi\ntries\nesi\nstart\tsvg\tp\nstart\tmathml\tbr\tdefer=ab\nend\tinput\nstart\thtml\tbr\nstart\thtml\tb\nstart\tmathml/\tesi:comment\nend\tp\nend\tb\nend\tESI:include\nstart\thtml\tinput\nstart\tmathml/\tesi:include\nend\ta\nend\tx\nstart\tmathml\ta\nstart\tsvg\tESI:include\nstart\thtml\tesi:include\nstart\thtml\thr\nstart\tmathml\tesi:comment\tid=a\nstart\thtml\tb\nstart\thtml\tinput\n\x1f\
    start\t-\tasked\ttries 0 0\nstart\t-\tasked\ttries 0 0\nend\t-\nstart\t-\ttries 0 0\nstart\t-\ttries 0 0\nstart\t-\tasked\ttries 0 0\nend\t0,1,4\nend\t-\nend\t-\nstart\t-\ttries 0 0\nstart\t-\tasked\ttries 0 0\nend\t-\nend\t-\nstart\t-\tasked\ttries 0 0\nstart\t-\tasked\ttries 0 0\nstart\t-\ttries 0 0\nstart\t-\ttries 0 0\nstart\t-\tasked\ttries 0 0\nstart\t-\ttries 0 0\nstart\t-\ttries 0 0\n\x1e\
    tries\nlimit\t1024\nselect\t1\tdiv\nselect\t33\th1:nth-child(2n +4)\ndrop\thtml\tdiv\ndrop\thtml\tb\nstart\thtml\tp\ndrop\thtml\tb\ndrop\thtml\ta\ndrop\thtml\ta\ndrop\thtml/\thr\nstart\thtml\thr\nstart\thtml\tb\ndrop\thtml\tbr\nstart\thtml\tbr\ndrop\thtml\tinput\nstart\thtml\tb\ndrop\thtml\thr\nstart\thtml\tb\ndrop\thtml\tx\nstart\thtml\thr\ndrop\thtml\tp\ndrop\thtml\tb\ndrop\thtml\tp\n\x1f\
    start\t1\ttries 2 0\nstart\t-\ttries 2 0\nstart\t-\ttries 2 0\nstart\t-\ttries 2 0\nstart\t-\ttries 2 0\nstart\t-\ttries 2 0\nstart\t-\ttries 2 0\nstart\t-\ttries 2 0\nstart\t-\ttries 2 0\nstart\t-\ttries 2 0\nstart\t-\ttries 2 0\nstart\t-\ttries 2 0\nstart\t-\ttries 2 0\nstart\t-\ttries 2 0\nstart\t-\ttries 2 0\nstart\t-\ttries 2 0\nstart\t-\ttries 2 0\nstart\t-\ttries 2 0\nstart\t-\ttries 2 0\nstart\t-\ttries 2 0\n\x1e\
    esi\ntries\ndrop\tsvg/\tp\nstart\thtml\tp\nstart\thtml\tesi:include\nstart\tsvg\tdiv\nstart\thtml\tx\ndrop\thtml/\tx\nstart\thtml\thr\nstart\tmathml\timg\ttype=b\ra\tx=b\ra\ndrop\tsvg\tp\nend\tinput\nstart\tmathml/\timg\ttype=ab\ndrop\thtml\tinput\nstart\thtml\thr\nstart\tmathml\tbr\nstart\thtml\tbr\nstart\tsvg\tx\ndrop\tmathml\tdiv\tx=x\nstart\tsvg\tb\nstart\thtml\tbr\nstart\tsvg\tbr\x1f\
    dropped\nstart\t-\ttries 0 0\nstart\t-\ttries 0 0\nstart\t-\tasked\ttries 0 0\nstart\t-\ttries 0 0\nstart\t-\ttries 0 0\nstart\t-\ttries 0 0\nstart\t-\tasked\ttries 0 0\ndropped\nend\t-\nstart\t-\tasked\ttries 0 0\nstart\t-\ttries 0 0\nstart\t-\ttries 0 0\nstart\t-\tasked\ttries 0 0\nstart\t-\ttries 0 0\nstart\t-\tasked\ttries 0 0\ndropped\nstart\t-\tasked\ttries 0 0\nstart\t-\ttries 0 0\nstart\t-\tasked\ttries 0 0\n\x1e\
    tries\nselect\t0\ta[|id|=\"text\" s]\nselect\t1\t[type*='' ]\nselect\t2\t*[X$='text' ]\nselect\t3\ta[class|=\"text\"]\nstart\thtml\tdiv\tx\nstart\thtml\tdiv\nstart\thtml\tx\ta=\nstart\thtml\tb\nstart\thtml\ta\tlang\ttype=b\nstart\thtml\tdiv\tlang=-\tb=a-b\nstart\thtml\tp\tid=a-b\tid=TEXT\nstart\thtml\ta\ta= a\nstart\thtml\tx\tclass=A-b\nend\tdiv\nstart\thtml\tb\nstart\thtml\ta\tid=a b\tx=b\nstart\thtml\ta\ta=a-b\nend\ta\nend\tx\x1f\
    start\t-\tasked\ttries 4 2\nstart\t-\tasked\ttries 4 2\nstart\t-\tasked\ttries 4 2\nstart\t-\tasked\ttries 4 2\nstart\t-\tasked\ttries 4 4\nstart\t-\tasked\ttries 4 2\nstart\t-\tasked\ttries 4 2\nstart\t-\tasked\ttries 4 4\nstart\t-\tasked\ttries 4 2\nend\t5,6,7,8\nstart\t-\tasked\ttries 4 2\nstart\t-\tasked\ttries 4 4\nstart\t-\tasked\ttries 4 4\nend\t12\nend\t2,3,4,10,11\n\x1e\
    tries\nselect\t0\t\\31\ta div \\31\ta .ab\nselect\t1\t\\31\ta > \\31\ta .ab .ab\nselect\t2\t.ab div\nselect\t3\t\\31\ta > div\nselect\t4\t.ab\nselect\t5\t.ab > div > div > \\31\ta > \\31\ta\nselect\t6\tdiv > div \\31\ta\nselect\t7\t\\31\ta > \\31\ta\nselect\t8\tdiv\nselect\t9\t.ab > .ab\nselect\t10\t\\31\ta > .ab \\31\ta > .ab > \\31\ta\nselect\t11\tdiv > .ab > \\31\ta .ab\nselect\t12\tdiv .ab\nselect\t13\t.ab > \\31\ta .ab\nselect\t14\t\\31\ta > \\31\ta .ab > .ab > div\nselect\t15\tdiv > \\31\ta\nstart\thtml\ta\nend\tb\nstart\thtml\tx\nstart\thtml/\tbr\nstart\thtml\tp\nend\tp\nstart\thtml\tX\nstart\thtml\tx\nend\ta\nstart\thtml\tBR\n\x1f\
    start\t-\tasked\ttries 3 1\nend\t-\nstart\t-\tasked\ttries 3 1\nstart\t-\tasked\ttries 3 1\nstart\t-\tasked\ttries 3 1\nend\t4\nstart\t-\tasked\ttries 3 1\nstart\t-\tasked\ttries 3 1\nend\t0,2,6,7\nstart\t-\tasked\ttries 3 1\n\x1e\
    select\t0\timg:not(br:nth-of-type(+3):nth-child(5n-2\r\t)) *\nselect\t1\timg:not(br:nth-of-type(+3):nth-child(5n-2\r\t)) > :first-of-type *\nselect\t2\t* > * img:not(br:nth-of-type(+3):nth-child(5n-2\r\t)) > img:not(br:nth-of-type(+3):nth-child(5n-2\r\t)) img:not(br:nth-of-type(+3):nth-child(5n-2\r\t))\nselect\t3\timg:not(br:nth-of-type(+3):nth-child(5n-2\r\t)) *\nselect\t4\t:first-of-type *\nselect\t5\t:first-of-type\nselect\t6\t:first-of-type > img:not(br:nth-of-type(+3):nth-child(5n-2\r\t))\nselect\t7\t* > * > :first-of-type img:not(br:nth-of-type(+3):nth-child(5n-2\r\t))\nstart\thtml\ta\ndrop\thtml\tp\nstart\thtml\tp\nstart\thtml\tp\nstart\thtml\tx\nstart\thtml\ta\nstart\thtml\tbr\nend\tx\nstart\thtml\tp\nend\thr\n\x1f\
    start\t5\nstart\t4,5\nstart\t4,5\nstart\t4,5\nstart\t4,5\nstart\t4,5\nstart\t4/,5/\nend\t4,5\nstart\t4,5\nend\t-\n\x1e\
    tries\n\nlimit\t1024\n\nlimit\t1024\n\nselect\t19412\thr li\n\nselect\t0\t* /* a > b */ x:not(p:not(*,b))\n\nstart\thtml\thr\n\nstart\thtml\thr\tlang=b\n\nstart\thtml\thr\n\nstart\thtml\thr\n\nstart\thtml\tinput\n\nstart\tmathml\tinput\n\nstart\tmathml\tp\n\nstart\thtml/\ta\n\nstart\thtml\ta\n\nstart\thtml\tp\n\nstart\thtml\timg\n\nstart\thtml\tbr\n\nstart\tsvg\tinput\n\nstart\thtml\timg\n\nstart\thtml\thr\n\nstart\thtml\tdiv\n\nstart\thtml\tb\n\nstart\thtml\ta\n\nstart\thtml\tdiv\n\nstart\thtml\tp\n\x1f\
    start\t-\ttries 2 0\nstart\t-\ttries 2 0\nstart\t-\ttries 2 0\nstart\t-\ttries 2 0\nstart\t-\ttries 2 0\nstart\t-\tasked\ttries 2 0\nstart\t-\tasked\ttries 3 0\nstart\t-\ttries 3 0\nstart\t-\ttries 3 0\nstart\t-\ttries 3 0\nstart\t-\ttries 3 0\nstart\t-\ttries 3 0\nstart\t-\tasked\ttries 3 0\nstart\t-\ttries 3 0\nstart\t-\ttries 3 0\nstart\t-\ttries 3 0\nstart\t-\ttries 3 0\nstart\t-\ttries 3 0\nstart\t-\ttries 3 0\nstart\t-\ttries 3 0\n\x1e\
    select\t3\t:is(:where(:where(:where(:is(:not(:is(:is(:not(:is(:not(:is(:not(:is(:not(:not(:where(:not(:is(:is(:where(:not(:not(:not(:where(:not(:is(:is(:is(:not(:is(:is(:is(:not(:where(:where(:where(:not(:where(:not(:not(:where(:is(:is(:not(:where(:where(:where(:where(:not(:is(:is(:not(:not(:not(:not(:not(:is(:is(:where(:not(:not(:where(:not(:not(:where(:not(:where(:is(:where(:not(:is(:not(:not(:is(:where(:is(:is(:is(:where(:not(:not(:not(:is(:where(:not(:is(:where(:is(:not(:is(:not(:where(:where(:is(:where(:where(:not(:where(:not(:is(:is(:is(:where(:not(:where(:where(:where(:not(:where(:is(:where(:is(:not(:is(:where(:is(:not(:not(:where(:is(:not(:is(:where(:not(:not(:where(a, b\nstart\thtml\tbr\ndrop\thtml\tbr\nstart\thtml\tbr\nstart\thtml\timg\nend\tb\n\x1f\
    start\t3/\nstart\t3/\nstart\t3/\nstart\t3/\nend\t-\n";

/// A script of any kind with a bad line, and its output.
pub(super) const BAD: [(&str, &str); 18] = [
    (
        "select\t31\t^:hover\nstart\thtml\ta\nend\tB\n",
        "bad line 1: EmptySelector\n",
    ),
    (
        "tries\nselect\t0\t[a0a[a\nend\tli\nend\tg\n",
        "bad line 2: UnexpectedTokenInAttribute\n",
    ),
    (
        "tries\n\nselect\t64\t \\31 ba>\n\nend\tdiv\n\ndrop\thtml\tb\n",
        "bad line 3: DanglingCombinator\n",
    ),
    (
        "tries\nesi\nselect\t32\t hr,A* \nstart\tsvg/\tb\nstart\thtml\tA\n",
        "bad line 3: UnexpectedToken\n",
    ),
    (
        "tries\n\nselect\t32\t|=n-1ODD-\n\nstart\thtml\tb\n\nstart\tmathml\tb\n",
        "bad line 3: EmptySelector\n",
    ),
    (
        "tries\nselect\t64\t[*|A\r$=\t/**/ b i\nstart\thtml\ta\nstart\thtml\tbr\n",
        "bad line 2: NamespacedSelector\n",
    ),
    (
        "\ntries\nselect\t32\ta[/**/*|a^=]1]\nstart\tmathml\tp\tLANG=b a\ta=TEXT\nstart\tsvg\tA\n",
        "bad line 3: UnexpectedEnd\n",
    ),
    (
        "tries\nselect\t2\t\r\\(:hover\nstart\thtml\tb\ttype=AB\nstart\thtml\tp\n",
        "bad line 2: UnsupportedPseudoClassOrElement\n",
    ),
    (
        "tries\nesi\nselect\t1\tba1-n:~#1_\nstart\tmathml\tx\nstart\thtml\tdiv\n",
        "bad line 3: UnsupportedPseudoClassOrElement\n",
    ),
    (
        "esi\nselect\t63\t[\\000063\\00006cAsS |=\\000062 ][B],spa-->\nend\tdiv\nstart\thtml\tdiv\tclass\n",
        "bad line 2: DanglingCombinator\n",
    ),
    (
        "tries\n\nselect\t32\t[<!--\rp*|a|url(:last-child:not(#-\\61':\n\nstart\thtml\tb\n\nstart\thtml\tp\n",
        "bad line 3: MissingAttributeName\n",
    ),
    (
        "select\t1\t[!*|2n+1\nend\timg\nstart\thtml\tdiv\tid=a\nstart\thtml\t1a\nend\tesi:comment\nstart\thtml\t1a\n",
        "bad line 1: MissingAttributeName\n",
    ),
    (
        "tries\n\nselect\t163\t:first-child+*[\n\nstart\tsvg\tb\n\nstart\thtml/\tb\n\nstart\tmathml/\tdiv\n\nend\ta\n\nstart\thtml\tdiv\tb=a=b\n",
        "bad line 3: UnexpectedEnd\n",
    ),
    (
        "tries\n\nselect\t2\t  [ a$= 'x' ][|\\0062 =\"a b\"  s], [\\000058\t.5='a b']\n\nstart\thtml\tb\n\nstart\thtml/\tb\n",
        "bad line 3: UnexpectedTokenInAttribute\n",
    ),
    (
        "select\t4\t:Not(x) \nselect\t4\t.-=a]|**:is(-a\ndrop\thtml\tesi:include\nstart\thtml\tP\nstart\thtml\tdiv\ndrop\thtml\tp\nstart\thtml\tp\ttype=a-b\n",
        "bad line 2: InvalidClassName\n",
    ),
    (
        "tries\nesi\nselect\t559\t#a a#b#ab [LAng ] spa}n,[lANg~=\"a-\"]>:not(*:whErE(\u{c}[  b]),*[|x= \"b\"][ID= ab   i][ tYpE], a )[lang*=x] p,.ab[|\\nohref] /* a > b */ #\\62 [accept-charset^=\"a b\"].x\nend\ta-b\nstart\thtml\tspan\n",
        "bad line 3: UnexpectedToken\n",
    ),
    (
        "select\t50\tX,\\000078\t, p\nend\tdiv\nstart\thtml\tp\tid=a-b\tx=A-b\ttype=TEXT\nstart\thtml\tg\tid=a\tb=TEXT\ttype=-\ttype=a=b\nstart\thtml//\ta\nend\ta\nstart\thtml\ta\tb\nstart\thtml\tg\ta=b a\nend\t1a\nend\ta\nend\tg\nend\ta-b\nend\ta\nstart\thtml\tli\tscope=b\ttype=a-b\nstart\thtml\tx\tclass=a b\tlang=a-\nstart\thtml\tinput\ta=a-\tb=A\nstart\thtml\tli\n",
        "bad line 5: form\n",
    ),
    (
        "esi\ntries\nselect\t0\tx.b\nstart\tsvg\ta\nstart\tmathml\tinput\nstart\thtml\tx\nstart\thtml\thr\nstart\thtml\tdiv\nend\tesi:comment\nstart\tsvg\tesi:include\nstart\tsvg/\tb\nend\ta\nstart\tsvg\tbr\nstart\tsvg\tdiv\nstart\tmathml\tx\nstart\tmathml\tesi:comment\nend\tinput\nstart\tHTML\ta\nstart\thtml\tb\nstart\tsvg\tinput\nstart\tmathml\tesi:include\nstart\tsvg\tesi:comment\nstart\tmathml/\tesi:include\nstart\thtml\tdiv\n",
        "bad line 18: form\n",
    ),
];
